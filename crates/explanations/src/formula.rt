// A formula by the line that it is.
ghost use Rattle.std.specs.Prelude.{◌≡◌, ◌<◌, length};
ghost use Rattle.formulas.specs.Lines.{Wellformed};

use formulas::Line;

// A line of well-formed lines.
#[derive(Clone, Copy)]
pub struct FormulaLine<'a> {
    pub lines: &'a [Line],
    pub line: u16,
    ghost well: { Wellformed lines.now },
    ghost inside: { line < length lines.now },
}

// The letter of a formula, with what stands behind it: the formulas are earlier lines.
pub enum Parts<'a> {
    True,
    End,
    Not(FormulaLine<'a>),
    Both(FormulaLine<'a>, FormulaLine<'a>),
    Step(u8, FormulaLine<'a>),
}

impl<'a> FormulaLine<'a> {
    ghost use Rattle.explanations.specs.Parts.{MadeOf};

    pub fn new(lines: &'a [Line], line: u16) -> FormulaLine<'a>
        requires well { Wellformed lines.now }
        requires inside { line < length lines.now }
        ensures lines { result.lines ≡ lines.entry }
        ensures line { result.line ≡ line }
    {
        FormulaLine { lines, line }
    }

    pub fn parts(self) -> Parts<'a>
        ensures { MadeOf self.entry result }
    {
        let lines = self.lines;
        match lines[self.line as usize] {
            Line::True => Parts::True,
            Line::End => Parts::End,
            Line::Not(i) => Parts::Not(FormulaLine { lines, line: i }),
            Line::Both(i, j) => Parts::Both(
                FormulaLine { lines, line: i },
                FormulaLine { lines, line: j },
            ),
            Line::Step(action, i) => Parts::Step(action, FormulaLine { lines, line: i }),
            Line::Unknown(_) => unreachable!(),
        }
    }
}
