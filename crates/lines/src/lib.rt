// Texts of many lines, and lines of parts.

#![tactic(auto)]

ghost use Rattle.std.specs.Prelude.{◌≡◌, ◌<◌, length};
ghost use Rattle.lines.specs.Lines.{first_part, later_part, first_line, later_lines, all_lines, lines_left};

// What stands before the first such byte, and what follows it.
pub fn split_at_byte(text: &[u8], mark: u8) -> (&[u8], &[u8])
    ensures first { result.0.now ≡ first_part mark text.now }
    ensures later { result.1.now ≡ later_part mark text.now }
    ensures shorter { 0 < length text.now → length result.1.now < length text.now }
{
    match text.iter().position(|byte| *byte == mark) {
        Some(at) => (&text[..at], &text[at + 1..]),
        None => (text, &[]),
    }
}

// The first line without its line feed, and what follows it.
pub fn split_line(text: &[u8]) -> (&[u8], &[u8])
    ensures line { result.0.now ≡ first_line text.now }
    ensures later { result.1.now ≡ later_lines text.now }
    ensures shorter { 0 < length text.now → length result.1.now < length text.now }
{
    split_at_byte(text, b'\n')
}

// The lines of a text one after another, each without its line feed.
#[derive(Clone, Copy)]
pub struct Lines<'a> {
    rest: &'a [u8],
}

impl<'a> Lines<'a> {
    pub fn new(text: &'a [u8]) -> Lines<'a>
        ensures { lines_left result ≡ all_lines text.now }
    {
        Lines { rest: text }
    }
}

impl<'a> Iterator for Lines<'a> {
    ghost use Rattle.std.specs.Iterator.{YieldsFirstRef, item_count};
    ghost use Rattle.lines.specs.Lines.{lines_left};

    type Item = &'a [u8];

    ghost next_gives = { YieldsFirstRef lines_left };

    ghost remaining = { item_count lines_left };

    fn next(&mut self) -> Option<&'a [u8]> {
        if self.rest.is_empty() {
            return None;
        }
        let (line, later) = split_line(self.rest);
        self.rest = later;
        Some(line)
    }
}
