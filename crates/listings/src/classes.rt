// The classes of two procedures side by side, each with its states.
ghost use Rattle.std.specs.Prelude.{◌≡◌, true, ◌++◌, map, length, if◌then◌else◌, string_bytes, codes, OnOk};
ghost use Rattle.listings.specs.Texts.{state_text, members, listed, class_text, classes_text};

use std::alloc::AllocError;

// State s of both, of which the left one has n states.
fn push_state(out: &mut String, n: usize, s: usize) -> Result<(), AllocError>
    ensures { OnOk result (string_bytes out.new ≡ string_bytes out.old ++ state_text n s) }
{
    if s < n {
        write!(out, "left {s}")
    } else {
        let s = s - n;
        write!(out, "right {s}")
    }
}

// What stands before a state; fresh where it is the first.
fn separator(fresh: bool) -> &'static str
    ensures { result.now ≡ (if fresh then codes ": " else codes ", ") }
{
    if fresh { ": " } else { ", " }
}

// The states of class c; `classes` has the class of each state.
fn push_members(out: &mut String, n: usize, classes: &[u16], c: u16) -> Result<(), AllocError>
    ensures { OnOk result (string_bytes out.new ≡ string_bytes out.old ++ listed true (map (state_text n) (members classes.now c (length classes.now)))) }
{
    let mut fresh = true;
    for (s, class) in classes.iter().enumerate() {
        if *class == c {
            out.push_str(separator(fresh))?;
            push_state(out, n, s)?;
            fresh = false;
        }
    }
    Ok(())
}

fn push_class(out: &mut String, n: usize, classes: &[u16], c: u16) -> Result<(), AllocError>
    ensures { OnOk result (string_bytes out.new ≡ string_bytes out.old ++ class_text n classes.now c) }
{
    write!(out, "class {c}")?;
    push_members(out, n, classes, c)?;
    out.push_str("\n")
}

// All classes, of which there are `count`.
pub fn push_classes(
    out: &mut String,
    n: usize,
    classes: &[u16],
    count: u16,
) -> Result<(), AllocError>
    ensures { OnOk result (string_bytes out.new ≡ string_bytes out.old ++ classes_text n classes.now count) }
{
    for c in 0..count {
        push_class(out, n, classes, c)?;
    }
    Ok(())
}
