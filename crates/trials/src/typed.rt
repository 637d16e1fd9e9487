// Lines typed into a console.
use commands::{Output, admit};
use console::Console;
use lines::Lines;
use std::alloc::{AllocError, Global};
use std::test::Fail;

// What a new console answers to a text of lines.
fn session(heap: Global, text: &[u8]) -> Result<Vec<u8>, AllocError> {
    let mut console = Console::new();
    let mut out = Vec::new(heap);
    for line in Lines::new(text) {
        out.extend_from_slice(console.answer(line).bytes())?;
    }
    Ok(out)
}

// Where a line leaves the form, or what it is refused with.
#[test]
fn lines_by_their_form(rt: HostRuntime) -> Result<(), Fail> {
    let typed =
        b"\nR\nR 0 \nF 0\nF 0 \nF 9 a\nM a\nM abc\nf 0 a\nr 0\nR 0\r\n\x00\n\xff\nF \xff\nM a\x00\nF 0 a\r\nM Zz";
    let told =
        b"refused 40 at 0\nrefused 40 at 1\nrefused 40 at 3\nrefused 40 at 3\nF 0 refused 12 at 0\nF 9 refused 20\nrefused 40 at 3\nrefused 40 at 4\nrefused 40 at 0\nrefused 40 at 0\nrefused 40 at 3\nrefused 40 at 0\nrefused 40 at 0\nrefused 40 at 2\nrefused 40 at 3\nF 0 refused 11 at 1\nM ok\n";
    let out = session(rt.alloc(), typed)?;
    assert!(rt; out.as_slice() == told.as_slice());
    Ok(())
}

// 32,768 bytes are read, one more is refused.
#[test]
fn inputs_by_their_length(rt: HostRuntime) -> Result<(), Fail> {
    let input = [b'\n'; 32769];
    assert!(rt; admit(&input[0..32768]).is_ok());
    match admit(&input) {
        Ok(()) => Err(Fail::new("read")),
        Err(fault) => {
            assert!(rt; Output::refused(&fault).bytes() == b"refused 41\n".as_slice());
            Ok(())
        },
    }
}
