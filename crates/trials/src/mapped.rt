// Action maps.
use drawings::{Form, draw};
use lts::{ActionMap, Mapped};
use refusals::Fault;
use std::test::Fail;
use terms::Term;

// Actions 62 and 63 have no character.
#[test]
fn mapped_actions(rt: HostRuntime) -> Result<(), Fail> {
    let mut entries = [0u8; 64];
    entries[0] = 62;
    entries[1] = 63;
    let map = ActionMap::new(entries)?;
    let term = Term::read(b"a.(b+c)")?;
    let mapped = Mapped {
        map: &map,
        source: &term,
    };
    let drawn = draw(rt.alloc(), Form::Table, &mapped)?;
    assert_eq!(rt;
        drawn.as_str(),
        "state 0: #62 -> 1\nstate 1: #63 -> 2, a -> 3\nstate 2: end\nstate 3: end\n"
    );
    Ok(())
}

#[test]
fn last_action_is_an_entry(rt: HostRuntime) -> Result<(), Fail> {
    let map = ActionMap::new([63; 64])?;
    assert_eq!(rt; map.get(0), Some(63));
    assert_eq!(rt; map.get(63), Some(63));
    assert_eq!(rt; map.get(64), None);
    Ok(())
}

#[test]
fn first_entry_that_is_no_action_is_told(rt: HostRuntime) -> Result<(), Fail> {
    let mut entries = [0; 64];
    entries[5] = 64;
    entries[9] = 255;
    let Err(fault) = ActionMap::new(entries) else {
        return Err(Fail::new("made"));
    };
    let text = fault.refusal().to_string(rt.alloc())?;
    assert_eq!(rt; text.as_str(), "refused 15 at 5");
    Ok(())
}
