//! Fields of a format, spelled by hand.

use gw_field_bytes::{
    Memory, NumberFormat, Plain, Room, Spelled, put_count, put_listed, read_listed,
};
use gw_fields::ReadError;
use gw_fields::codes::TAG;
use std::alloc::Global;
use std::test::Fail;

/// Puts a number of each kind behind what is there, one behind the other.
fn put_numbers(out: &mut Vec<u8>) -> Result<(), Memory> {
    1u8.put(out)?;
    515u16.put(out)?;
    67_438_087u32.put(out)?;
    579_005_069_656_919_567u64.put(out)?;
    (-2i32).put(out)?;
    (-3i64).put(out)
}

#[test]
fn numbers_stand_with_their_highest_byte_first(rt: HostRuntime) -> Result<(), Fail> {
    let mut bytes = Vec::new(rt.alloc());
    put_numbers(&mut bytes)?;
    let expected = b"\x01\x02\x03\x04\x05\x06\x07\x08\x09\x0a\x0b\x0c\x0d\x0e\x0f\
        \xff\xff\xff\xfe\xff\xff\xff\xff\xff\xff\xff\xfd";
    assert!(rt; bytes.as_slice() == expected.as_slice());
    Ok(())
}

/// Whether two numbers behind their count are read, with a byte after them.
fn is_list_read(alloc: Global) -> bool {
    match read_listed::<Plain<NumberFormat, u16>>(alloc, b"\x02\0\x01\x01\x02\x09", 0, 2).ok() {
        Some((numbers, rest)) => numbers.as_slice() == [1u16, 258].as_slice() && rest.len() == 1,
        None => false,
    }
}

/// Whether a flag of 2 is refused, with what is left from its byte on.
fn is_flag_refused(alloc: Global) -> bool {
    match Option::<u8>::read(alloc, b"\x02\x07").err() {
        Some(ReadError::Wrong(fault)) => fault.code == TAG && fault.left == 2,
        _ => false,
    }
}

/// Whether numbers are counted that are put into a room for 7 bytes, and into one for 4, which is too small.
fn are_counted() -> bool {
    let mut large = Room { left: Some(7) };
    let mut small = Room { left: Some(4) };
    put_count(&mut large, 255).is_ok()
        && large.left == Some(2)
        && put_listed(&mut small, &[1_u16, 258]).is_ok()
        && small.left.is_none()
}

#[test]
fn lists_stand_behind_their_count(rt: HostRuntime) {
    assert!(rt; is_list_read(rt.alloc()) && is_flag_refused(rt.alloc()) && are_counted());
}
