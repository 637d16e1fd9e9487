// What crosses to C as numbers.
ghost use Rattle.std.specs.Prelude.{◌≡◌, ◌*◌, ◌/◌, ◌≤◌, ◌++◌, length, take, drop};
ghost use Rattle.embed.specs.Numbers.{input_of, layer_number, placed, place_number, three, numbers_of, line_of, lines_of};

use formulas::Line;
use inputs::Input;
use refusals::Layer;

// 0 is a term's text, any other number a table file.
pub fn given(kind: u8, bytes: &[u8]) -> Input<'_>
    ensures { result ≡ input_of kind bytes.entry }
{
    if kind == 0 {
        Input::Term(bytes)
    } else {
        Input::Table(bytes)
    }
}

pub fn layer_number(layer: Layer) -> u8
    ensures { result ≡ layer_number layer }
{
    match layer {
        Layer::Record => 1,
        Layer::Table => 2,
        Layer::Term => 3,
        Layer::Map => 4,
        Layer::Shelf => 5,
        Layer::Compare => 6,
        Layer::Evaluation => 7,
        Layer::Console => 8,
    }
}

// Whether there is a place, and which.
pub fn place_numbers(place: Option<usize>) -> (u8, u64)
    ensures some { result.0 ≡ placed place }
    ensures at { result.1 ≡ place_number place }
{
    match place {
        None => (0, 0),
        Some(at) => (1, at as u64),
    }
}

// The character of a line's letter, and the two numbers behind it.
fn line_numbers(line: Line) -> [u16; 3]
    ensures { result ≡ three line }
{
    match line {
        Line::True => ['T' as u16, 0, 0],
        Line::End => ['E' as u16, 0, 0],
        Line::Not(i) => ['N' as u16, i, 0],
        Line::Both(i, j) => ['A' as u16, i, j],
        Line::Step(a, i) => ['D' as u16, u16::from(a), i],
        Line::Unknown(c) => [u16::from(c), 0, 0],
    }
}

// Writes the lines as numbers, three a line, to the front of the places. By index: what is written through `chunks_exact_mut`
// no proof knows afterwards.
pub fn write_lines(lines: &[Line], places: &mut [u16])
    requires { 3 * length lines.now ≤ length places.old }
    ensures { places.new ≡ numbers_of lines.now ++ drop (3 * length lines.now) places.old }
{
    for (k, line) in lines.iter().enumerate() {
        places[3 * k..3 * k + 3].copy_from_slice(&line_numbers(*line));
    }
}

// The line that three numbers stand for.
fn line_of(letter: u16, first: u16, second: u16) -> Line
    ensures { result ≡ line_of letter first second }
{
    match letter.min(255) as u8 {
        b'T' => Line::True,
        b'E' => Line::End,
        b'N' => Line::Not(first),
        b'A' => Line::Both(first, second),
        b'D' => Line::Step(first.min(255) as u8, second),
        letter => Line::Unknown(letter),
    }
}

// Reads as many lines as the numbers make, three a line, into the front of the places.
pub fn read_lines(numbers: &[u16], places: &mut [Line])
    requires { length numbers.now / 3 ≤ length places.old }
    ensures { take (length numbers.now / 3) places.new ≡ lines_of numbers.now }
{
    for (k, three) in numbers.chunks_exact(3).enumerate() {
        places[k] = line_of(three[0], three[1], three[2]);
    }
}
