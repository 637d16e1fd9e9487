// Files at every row and edge, and what a table answers.
use crate::table::Table;
use lts::System;
use refusals::{Fault, Layer, Refusal};
use std::test::Fail;

// Each case: the number of the refusal, or 0, and its place; the length of the file, and the file.
const CASES: &[u8] = b"\
    \x03\x00\x00\
    \x01\x00\x01\x01\
    \x01\x00\x03\x01\x00\x01\
    \x01\x05\x06\x01\x00\x01\x00\x01\x00\
    \x02\x00\x05\x02\x00\x01\x00\x01\
    \x02\x05\x0a\x01\x00\x01\x00\x01\xff\xff\x05\x00\x01\
    \x03\x00\x04\x00\x00\x04\x00\
    \x03\x00\x05\x00\x00\x05\x00\x09\
    \x03\x05\x0a\x01\x00\x01\x00\x01\x01\x00\x01\x00\x01\
    \x03\x05\x0b\x01\x00\x01\x00\x01\x02\x00\x01\x00\x00\x00\
    \x04\x05\x09\x01\x00\x01\x00\x01\x00\x00\x05\x00\
    \x04\x05\x09\x01\x00\x01\x00\x01\x00\x00\x00\x00\
    \x04\x05\x0a\x01\x00\x01\x00\x01\x01\x00\x00\x01\x00\
    \x04\x05\x0c\x01\x00\x01\x00\x01\x03\x00\x05\x00\x07\x07\x07\
    \x04\x00\x04\x00\x00\x01\x00\
    \x04\x00\x06\x02\x00\x01\x00\x00\x00\
    \x04\x05\x09\x01\x00\x01\x00\x01\x00\x00\x02\x00\
    \x04\x05\x0b\x01\x00\x01\x00\x01\x02\x00\x02\x00\x09\x09\
    \x04\x05\x0b\x01\x00\x01\x00\x01\x02\x00\x03\x00\x09\x09\
    \x04\x05\x0d\x01\x00\x01\x00\x01\x04\x00\x03\x00\x09\x40\x09\x09\
    \x05\x00\x05\x01\x00\x01\x00\x00\
    \x05\x00\x05\x01\x00\x01\x00\x81\
    \x00\x00\x05\x01\x00\x01\x00\x80\
    \x05\x05\x0a\x01\x00\x01\x00\x03\x01\x00\x02\x00\x03\
    \x00\x00\x0a\x01\x00\x01\x00\x03\x01\x00\x02\x00\x02\
    \x05\x05\x0c\x01\x00\x01\x00\x03\x03\x00\x03\x00\x03\x00\x00\
    \x05\x05\x0c\x01\x00\x01\x00\x03\x03\x00\x03\x00\x00\x40\x00\
    \x05\x05\x0c\x01\x00\x01\x00\x03\x03\x00\x03\x00\x00\x00\x03\
    \x00\x00\x0c\x01\x00\x01\x00\x03\x03\x00\x03\x00\x02\x3f\x02\
    \x05\x05\x0b\x01\x00\x01\x00\x01\x01\x00\x02\x00\x01\x09\
    \x05\x09\x13\x01\x00\x01\x00\x01\x00\x00\x04\x00\x01\x00\x02\x00\x01\x01\x00\x01\x00\x01\
    \x00\x00\x0f\x01\x00\x01\x00\x01\x00\x00\x04\x00\x02\x00\x04\x00\x01\x02\
";

// What a file's refusal tells, if it is refused.
fn told(file: &[u8]) -> Option<Refusal> {
    match Table::read(file) {
        Ok(_) => None,
        Err(fault) => Some(fault.refusal()),
    }
}

// The refusal of this number, of a record or of the table; number 0 is none.
fn row(number: u8, place: usize) -> Option<Refusal> {
    let layer = match number {
        0 => return None,
        1..=2 => Layer::Record,
        _ => Layer::Table,
    };
    Some(Refusal {
        number,
        layer,
        place: Some(place),
    })
}

#[test]
fn files_are_refused_by_the_first_row(rt: HostRuntime) -> Result<(), Fail> {
    let mut left = CASES;
    while let [number, place, size, rest @ ..] = left {
        let size = *size as usize;
        assert!(rt; size <= rest.len());
        assert_eq!(rt; told(&rest[0..size]), row(*number, *place as usize));
        left = &rest[size..];
    }
    assert!(rt; left.len() == 0);
    Ok(())
}

#[test]
fn steps_stand_in_file_order(rt: HostRuntime) -> Result<(), Fail> {
    let table = Table::read(
        b"\
        \x01\x00\x01\x00\x02\
        \x03\x00\x03\x00\x01\x05\x00\
        \x03\x00\x03\x00\x00\x07\x01\
        \x01\x00\x02\x00\x01\
        \x03\x00\x03\x00\x01\x04\x01\
        \x03\x00\x03\x00\x01\x05\x00",
    )?;
    assert!(rt; table.states() == 2);
    assert!(rt; !table.is_end(0) && table.is_end(1) && !table.is_end(2));
    assert!(rt; table.step_count(0) == 1 && table.step_count(1) == 3 && table.step_count(2) == 0);
    assert_eq!(rt; table.step(0, 0), Some((7, 1)));
    assert_eq!(rt; table.step(1, 0), Some((5, 0)));
    assert_eq!(rt; table.step(1, 1), Some((4, 1)));
    assert_eq!(rt; table.step(1, 2), Some((5, 0)));
    assert_eq!(rt; table.step(1, 3), None);
    Ok(())
}

// 513 steps of the one state to itself, and the largest files.
#[test]
fn the_largest_files_are_read(rt: HostRuntime) -> Result<(), Fail> {
    let mut file = [0; 16385];
    file[0] = 1;
    file[2] = 1;
    file[4] = 1;
    for i in 0..513 {
        file[5 + 7 * i] = 3;
        file[7 + 7 * i] = 3;
    }
    assert_eq!(rt; told(&file[0..3589]), row(0, 0));
    assert_eq!(rt; told(&file[0..3596]), row(6, 3589));
    file[3595] = 1;
    assert_eq!(rt; told(&file[0..3596]), row(5, 3589));
    file[5] = 0xf7;
    file[6] = 0x3f;
    file[7] = 4;
    assert_eq!(rt; told(&file[0..16384]), row(0, 0));
    assert_eq!(rt; told(&file), row(7, 0));
    Ok(())
}
