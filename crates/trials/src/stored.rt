// Terms copied and joined.
use drawings::{Form, draw};
use lts::{Pair, Source, Stored, System, copied};
use std::test::Fail;
use terms::Term;

// 16 actions, each followed by 31: 512 steps.
#[test]
fn copies_512_steps(rt: HostRuntime) -> Result<(), Fail> {
    let term = Term::read(
        b"(a+a+a+a+a+a+a+a+a+a+a+a+a+a+a+a).(b+b+b+b+b+b+b+b+b+b+b+b+b+b+b+b+b+b+b+b+b+b+b+b+b+b+b+b+b+b+b)",
    )?;
    assert!(rt; copied(&term).is_some());
    Ok(())
}

// 27 actions, each followed by 18: 513 steps.
#[test]
fn copies_no_513_steps(rt: HostRuntime) -> Result<(), Fail> {
    let term = Term::read(
        b"(a+a+a+a+a+a+a+a+a+a+a+a+a+a+a+a+a+a+a+a+a+a+a+a+a+a+a).(b+b+b+b+b+b+b+b+b+b+b+b+b+b+b+b+b+b)",
    )?;
    assert!(rt; copied(&term).is_none());
    Ok(())
}

// A copy is drawn as the term is.
#[test]
fn copy_is_the_same(rt: HostRuntime) -> Result<(), Fail> {
    let term = Term::read(b"a.(b+c).d+e")?;
    let copy = copied(&term).ok_or("not copied")?;
    let view = Stored { of: &copy };
    let drawn = draw(rt.alloc(), Form::Table, &view)?;
    let expected = draw(rt.alloc(), Form::Table, &term)?;
    assert_eq!(rt; drawn.as_str(), expected.as_str());
    Ok(())
}

// The right side's states stand behind the left side's.
#[test]
fn joined_states(rt: HostRuntime) -> Result<(), Fail> {
    let left = Term::read(b"a")?;
    let right = Term::read(b"b.c")?;
    let pair = Pair::new(&left, &right);
    assert_eq!(rt; pair.states(), 5);
    assert!(rt; pair.is_end(1) && !pair.is_end(2) && pair.is_end(4));
    assert_eq!(rt; pair.step_count(3), 1);
    assert_eq!(rt; pair.step(3, 0), Some((2, 4)));
    assert_eq!(rt; pair.step(3, 1), None);
    Ok(())
}
