// Days on a shelf.
use crate::{discard, update};
use comparison::{Verdict, compare};
use formulas::Line;
use lts::Source;
use refusals::{Fault, Layer, Refusal};
use shelves::{Numbers, Outcome, Shelf, ShelfCall, ShelfFault, run};
use std::process::Abort;
use std::test::Fail;
use terms::Term;

// The number of a refusal; 0 where the call was accepted.
fn number<T: Drop>(answer: Result<T, ShelfFault>) -> u8 {
    match answer {
        Ok(_) => 0,
        Err(fault) => fault.refusal().number,
    }
}

// Forty updates of slot 7, by two versions in turn.
fn release_forty(
    rt: &impl Abort,
    shelf: &mut Shelf,
    versions: &[Term; 2],
    lines: &mut [Line],
    classes: &mut [u16],
) {
    for k in 0..40usize {
        assert_eq!(rt;
            number(update(shelf, 7, &versions[k % 2], lines, classes)),
            0
        );
    }
}

// Each release is held only against the one before; the last is the same as the first.
#[test]
fn forty_releases(rt: HostRuntime) -> Result<(), Fail> {
    let mut lines = [Line::True; 64];
    let mut classes = [0u16; 16];
    let first = Term::read(b"a.(b+c)")?;
    let versions = [Term::read(b"a.(c+b)")?, Term::read(b"a.(b+c)+a.(c+b)")?];
    let mut shelf = Shelf::new(1);
    assert_eq!(rt; number(shelf.file(7, &first)), 0);
    release_forty(&rt, &mut shelf, &versions, &mut lines, &mut classes);
    let report = compare(&first, &versions[1], &mut lines, &mut classes)?;
    assert_eq!(rt; number(shelf.file(7, &first)), 21);
    assert!(rt; matches!(report.verdict, Verdict::Same));
    Ok(())
}

// Every row that a call can meet before the clearances.
#[test]
fn rows(rt: HostRuntime) -> Result<(), Fail> {
    let mut lines = [Line::True; 64];
    let mut classes = [0u16; 9];
    let mut small = [0u16; 8];
    let term = Term::read(b"a.(b+c)")?;
    let other = Term::read(b"a.b+a.c")?;
    let mut shelf = Shelf::new(0);
    assert_eq!(rt; number(shelf.file(8, &term)), 20);
    assert_eq!(rt;
        number(shelf.submit(8, &term, &mut lines, &mut classes)),
        20
    );
    assert_eq!(rt;
        number(shelf.submit(7, &term, &mut lines, &mut classes)),
        22
    );
    assert_eq!(rt; number(discard(&mut shelf, 7)), 22);
    assert_eq!(rt; number(shelf.file(7, &term)), 0);
    assert_eq!(rt; number(shelf.file(7, &term)), 21);
    assert_eq!(rt; number(discard(&mut shelf, 7)), 27);
    assert_eq!(rt; number(shelf.submit(7, &other, &mut lines, &mut small)), 25);
    assert_eq!(rt;
        number(shelf.submit(7, &other, &mut lines, &mut classes)),
        26
    );
    assert_eq!(rt; number(shelf.submit(7, &term, &mut lines, &mut classes)), 0);
    assert_eq!(rt;
        number(shelf.submit(7, &term, &mut lines, &mut classes)),
        23
    );
    assert_eq!(rt; number(discard(&mut shelf, 7)), 0);
    Ok(())
}

// 512 steps in all are filed and submitted, 513 are not.
#[test]
fn steps(rt: HostRuntime) -> Result<(), Fail> {
    let mut lines = [Line::True; 400];
    let mut classes = [0u16; 96];
    let most = Term::read(
        b"(a+a+a+a+a+a+a+a+a+a+a+a+a+a+a+a).(a+a+a+a+a+a+a+a+a+a+a+a+a+a+a+a+a+a+a+a+a+a+a+a+a+a+a+a+a+a+a)",
    )?;
    let over = Term::read(
        b"(a+a+a+a+a+a+a+a+a+a+a+a+a+a+a+a+a+a+a+a+a+a+a+a+a+a+a).(a+a+a+a+a+a+a+a+a+a+a+a+a+a+a+a+a+a)",
    )?;
    let mut shelf = Shelf::new(0);
    assert_eq!(rt; number(shelf.file(0, &over)), 24);
    assert_eq!(rt; number(shelf.file(0, &most)), 0);
    assert_eq!(rt;
        number(shelf.submit(0, &over, &mut lines, &mut classes)),
        24
    );
    assert_eq!(rt; number(shelf.submit(0, &most, &mut lines, &mut classes)), 0);
    Ok(())
}

// Buffers one place short are kept, and a difference fills them.
#[test]
fn buffers(rt: HostRuntime) -> Result<(), Fail> {
    let mut few_lines = [Line::True; 12];
    let mut lines = [Line::True; 13];
    let mut few_classes = [7u16; 3];
    let mut classes = [7u16; 4];
    let term = Term::read(b"a")?;
    let other = Term::read(b"b")?;
    let mut shelf = Shelf::new(0);
    assert_eq!(rt; number(shelf.file(0, &term)), 0);
    assert_eq!(rt;
        number(shelf.submit(0, &other, &mut few_lines, &mut classes)),
        25
    );
    assert!(rt; few_lines[0] == Line::True && classes[0] == 7);
    assert_eq!(rt;
        number(shelf.submit(0, &other, &mut lines, &mut few_classes)),
        25
    );
    assert!(rt; lines[0] == Line::True && few_classes[0] == 7);
    assert_eq!(rt;
        number(shelf.submit(0, &other, &mut lines, &mut classes)),
        26
    );
    assert!(rt; lines[0] == Line::End && classes[0] < 3);
    assert_eq!(rt; number(discard(&mut shelf, 0)), 27);
    assert_eq!(rt; number(shelf.submit(0, &term, &mut lines, &mut classes)), 0);
    Ok(())
}

// Submits a source to slot 0 and discards it, so many times.
fn claim_often<const N: usize, S: Source<N>>(
    rt: &impl Abort,
    shelf: &mut Shelf,
    source: &S,
    times: u16,
    lines: &mut [Line],
    classes: &mut [u16],
) {
    for _ in 0..times {
        assert_eq!(rt; number(shelf.submit(0, source, lines, classes)), 0);
        assert_eq!(rt; number(discard(shelf, 0)), 0);
    }
}

// 65,535 claims can be made, and no more.
#[test]
fn claims(rt: HostRuntime) -> Result<(), Fail> {
    let mut lines = [Line::True; 13];
    let mut classes = [0u16; 4];
    let term = Term::read(b"a")?;
    let mut shelf = Shelf::new(0);
    assert_eq!(rt; number(shelf.file(0, &term)), 0);
    claim_often(&rt, &mut shelf, &term, 65535, &mut lines, &mut classes);
    assert_eq!(rt; number(shelf.submit(0, &term, &mut lines, &mut classes)), 0);
    assert_eq!(rt; number(discard(&mut shelf, 0)), 28);
    Ok(())
}

// A clearance is no good after a newer claim, nor on a shelf with another number.
#[test]
fn clearances(rt: HostRuntime) -> Result<(), Fail> {
    let mut lines = [Line::True; 64];
    let mut classes = [0u16; 16];
    let term = Term::read(b"a")?;
    let mut shelf = Shelf::new(3);
    let mut other = Shelf::new(4);
    assert_eq!(rt; number(shelf.file(0, &term)), 0);
    assert_eq!(rt; number(shelf.submit(0, &term, &mut lines, &mut classes)), 0);
    if let Ok(mut older) = shelf.claim(0) {
        if let Ok(mut newer) = shelf.claim(0) {
            let refused = number(shelf.release(&mut older));
            let elsewhere = number(other.release(&mut newer));
            assert_eq!(rt; refused, 29);
            assert_eq!(rt; elsewhere, 29);
        } else {
            let _ = shelf.withdraw(&mut older);
        }
    }
    assert_eq!(rt; number(discard(&mut shelf, 0)), 0);
    Ok(())
}

// Nor on another shelf with the same number; the pending procedure stays.
#[test]
fn namesakes(rt: HostRuntime) -> Result<(), Fail> {
    let mut lines = [Line::True; 13];
    let mut classes = [0u16; 4];
    let term = Term::read(b"a")?;
    let mut shelf = Shelf::new(3);
    let mut namesake = Shelf::new(3);
    assert_eq!(rt; number(shelf.file(0, &term)), 0);
    assert_eq!(rt; number(shelf.submit(0, &term, &mut lines, &mut classes)), 0);
    if let Ok(mut clearance) = shelf.claim(0) {
        let refused = number(namesake.withdraw(&mut clearance));
        assert_eq!(rt; refused, 29);
    }
    assert_eq!(rt; number(discard(&mut shelf, 0)), 0);
    Ok(())
}

// A clearance of shelf 5 for slot 7.
fn clearance(claim: u16) -> Numbers {
    Numbers {
        shelf: 5,
        slot: 7,
        claim,
    }
}

// A refusal of a shelf, which has no place.
fn refusal(number: u8) -> Refusal {
    Refusal {
        number,
        layer: Layer::Shelf,
        place: None,
    }
}

// A list of calls run whole: a clearance is named by its claim, the first by 1.
#[test]
fn a_list_of_calls(rt: HostRuntime) -> Result<(), Fail> {
    let term = Term::read(b"a.(b+c)")?;
    let same = Term::read(b"a.(c+b)")?;
    let other = Term::read(b"a.b+a.c")?;
    let calls = [
        ShelfCall::File {
            slot: 7,
            source: term,
        },
        ShelfCall::Submit {
            slot: 7,
            source: other,
            lines: 1021,
            classes: 256,
        },
        ShelfCall::Submit {
            slot: 7,
            source: same,
            lines: 28,
            classes: 8,
        },
        ShelfCall::Submit {
            slot: 7,
            source: same,
            lines: 9999,
            classes: 9999,
        },
        ShelfCall::Claim { slot: 7 },
        ShelfCall::Claim { slot: 7 },
        ShelfCall::Withdraw {
            clearance: clearance(1),
        },
        ShelfCall::Release {
            clearance: clearance(2),
        },
        ShelfCall::Release {
            clearance: clearance(2),
        },
    ];
    let expected = [
        Ok(Outcome::Accepted),
        Ok(Outcome::Different { depth: 2 }),
        Err(refusal(25)),
        Ok(Outcome::Same),
        Ok(Outcome::Cleared {
            clearance: clearance(1),
        }),
        Ok(Outcome::Cleared {
            clearance: clearance(2),
        }),
        Err(refusal(29)),
        Ok(Outcome::Accepted),
        Err(refusal(29)),
    ];
    let mut answers = [Ok(Outcome::Accepted); 9];
    assert!(rt; run(5, &calls, &mut answers[0..8]).is_none());
    assert!(rt; run(5, &calls, &mut answers).is_some());
    for (answer, outcome) in answers.iter().zip(expected.iter()) {
        assert_eq!(rt; *answer, *outcome);
    }
    Ok(())
}
