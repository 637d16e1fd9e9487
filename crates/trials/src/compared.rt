// The ten worked pairs run through the comparison, and each formula through its evaluation.
use comparison::{Verdict, compare};
use formulas::{Line, evaluate};
use lts::Source;
use std::process::Abort;
use std::test::Fail;
use tables::Table;
use terms::Term;

// A verdict's depth; none where the starts are the same.
type Row = (u16, u16, Option<u16>);

// Whether the line holds at the start.
fn holds<const N: usize, S: Source<N>>(source: &S, lines: &[Line], line: u16) -> Option<bool> {
    let mut work = [0u8; 4096];
    match evaluate(source, lines, line as usize, 0, &mut work) {
        Ok(answer) => Some(answer),
        Err(_) => None,
    }
}

// The number of classes, of rounds, and the depth. On "different" the formula holds left and fails right.
fn row<const M: usize, const N: usize, L: Source<M>, R: Source<N>>(
    rt: &impl Abort,
    left: &L,
    right: &R,
    lines: &mut [Line],
    classes: &mut [u16],
) -> Result<Row, Fail> {
    let report = compare(left, right, lines, classes)?;
    match report.verdict {
        Verdict::Same => Ok((report.classes, report.rounds, None)),
        Verdict::Different {
            lines: n,
            line,
            depth,
        } => {
            let n = n as usize;
            assert!(rt; n <= lines.len());
            assert_eq!(rt; holds(left, &lines[0..n], line), Some(true));
            assert_eq!(rt; holds(right, &lines[0..n], line), Some(false));
            Ok((report.classes, report.rounds, Some(depth)))
        }
    }
}

// The row of two terms.
fn terms(rt: &impl Abort, left: &[u8], right: &[u8]) -> Result<Row, Fail> {
    let mut lines = [Line::True; 64];
    let mut classes = [0u16; 16];
    row(
        rt,
        &Term::read(left)?,
        &Term::read(right)?,
        &mut lines,
        &mut classes,
    )
}

// The row of two table files.
fn files(rt: &impl Abort, left: &[u8], right: &[u8]) -> Result<Row, Fail> {
    let mut lines = [Line::True; 64];
    let mut classes = [0u16; 16];
    row(
        rt,
        &Table::read(left)?,
        &Table::read(right)?,
        &mut lines,
        &mut classes,
    )
}

#[test]
fn ten_pairs(rt: HostRuntime) -> Result<(), Fail> {
    assert_eq!(rt; terms(&rt, b"a", b"a+a")?, (2, 0, None));
    assert_eq!(rt; terms(&rt, b"(a+a).b", b"a.b+a.(b+b)")?, (3, 1, None));
    assert_eq!(rt; terms(&rt, b"(a.b).c", b"a.(b.c)")?, (4, 1, None));
    assert_eq!(rt; terms(&rt, b"(a+b).c", b"a.c+b.c")?, (3, 1, None));
    assert_eq!(rt; terms(&rt, b"a", b"b")?, (3, 1, Some(1)));
    assert_eq!(rt; terms(&rt, b"a.a", b"a")?, (3, 1, Some(1)));
    assert_eq!(rt; terms(&rt, b"a.(b+c)", b"a.b+a.c")?, (6, 2, Some(2)));
    assert_eq!(rt; terms(&rt, b"a.(b+c)+a.b", b"a.(b+c)")?, (5, 2, Some(2)));
    // One state, no end; one state, an end.
    assert_eq!(rt;
        files(
            &rt,
            b"\x01\x00\x01\x00\x01",
            b"\x01\x00\x01\x00\x01\x01\x00\x02\x00\x00",
        )?,
        (2, 0, Some(0))
    );
    // One state, a to itself; two states, a to each other.
    assert_eq!(rt;
        files(
            &rt,
            b"\x01\x00\x01\x00\x01\x03\x00\x03\x00\x00\x00\x00",
            b"\x01\x00\x01\x00\x02\x03\x00\x03\x00\x00\x00\x01\x03\x00\x03\x00\x01\x00\x00",
        )?,
        (1, 0, None)
    );
    Ok(())
}
