// Two terms explained.
use explanations::explain;
use std::test::Fail;

#[test]
fn two_terms(rt: HostRuntime) -> Result<(), Fail> {
    let text = explain(rt.alloc(), b"a", b"a+a")?;
    assert_eq!(rt;
        text.as_str(),
        "left a\nstate 0: a -> 1\nstate 1: end\nright a+a\nstate 0: a -> 1, a -> 2\nstate 1: end\nstate 2: end\nsame, 2 classes, 0 rounds\nclass 0: left 0, right 0\nclass 1: left 1, right 1, right 2\n"
    );
    Ok(())
}
