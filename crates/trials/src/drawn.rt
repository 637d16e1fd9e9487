// Procedures drawn for other tools.
use drawings::{Form, draw_input, draw_term};
use inputs::Input;
use std::test::Fail;

#[test]
fn digraph(rt: HostRuntime) -> Result<(), Fail> {
    let text = draw_term(rt.alloc(), Form::Dot, b"a.(b+c)")?;
    assert_eq!(rt;
        text.as_str(),
        "digraph procedure {\n  rankdir=LR;\n  node [shape=circle];\n  start [shape=point];\n  start -> 0;\n  0;\n  0 -> 1 [label=\"a\"];\n  1;\n  1 -> 2 [label=\"b\"];\n  1 -> 3 [label=\"c\"];\n  2 [shape=doublecircle];\n  3 [shape=doublecircle];\n}\n"
    );
    Ok(())
}

#[test]
fn aldebaran(rt: HostRuntime) -> Result<(), Fail> {
    let text = draw_term(rt.alloc(), Form::Aut, b"a.(b+c)")?;
    assert_eq!(rt;
        text.as_str(),
        "des (0, 5, 4)\n(0, \"a\", 1)\n(1, \"b\", 2)\n(1, \"c\", 3)\n(2, \"end\", 2)\n(3, \"end\", 3)\n"
    );
    Ok(())
}

#[test]
fn table_file(rt: HostRuntime) -> Result<(), Fail> {
    let file = b"\x01\x00\x01\x00\x02\x03\x00\x03\x00\x00\x3e\x01\x01\x00\x02\x00\x01";
    let text = draw_input(rt.alloc(), Form::Aut, Input::Table(file))?;
    assert_eq!(rt;
        text.as_str(),
        "des (0, 2, 2)\n(0, \"#62\", 1)\n(1, \"end\", 1)\n"
    );
    Ok(())
}
