// What takes memory succeeds where there is some: the bytes of commands, and a machine.
use crate::machine::Machine;
use crate::spell::{put_code, put_eight, put_eights, put_numbers, put_text};
use std::test::Fail;

#[test]
fn a_drop_is_spelled(rt: HostRuntime) -> Result<(), Fail> {
    let mut bytes = Vec::new(rt.alloc());
    put_code(&mut bytes, 5, &[1, 2])?;
    assert!(rt; bytes.as_slice() == [5, 0, 0, 0, 0, 0, 0, 0, 1, 0, 0, 0, 0, 0, 0, 0, 2].as_slice());
    Ok(())
}

#[test]
fn numbers_are_spelled(rt: HostRuntime) -> Result<(), Fail> {
    let mut bytes = Vec::new(rt.alloc());
    put_eight(&mut bytes, 258)?;
    put_eights(&mut bytes, &[3])?;
    put_numbers(&mut bytes, &[4])?;
    let spelled = [
        0, 0, 0, 0, 0, 0, 1, 2, 0, 0, 0, 0, 0, 0, 0, 3, 0, 0, 0, 0, 0, 0, 0, 1, 0, 0, 0, 0, 0, 0,
        0, 4,
    ];
    assert!(rt; bytes.as_slice() == spelled.as_slice());
    Ok(())
}

#[test]
fn a_name_is_spelled(rt: HostRuntime) -> Result<(), Fail> {
    let mut bytes = Vec::new(rt.alloc());
    put_text(&mut bytes, b"Ann")?;
    assert!(rt; bytes.as_slice() == [0, 0, 0, 0, 0, 0, 0, 3, 65, 110, 110].as_slice());
    Ok(())
}

#[test]
fn a_machine_is_made(rt: HostRuntime) -> Result<(), Fail> {
    Machine::new(rt.alloc())?;
    Ok(())
}
