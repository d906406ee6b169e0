//! Each operation of a word buffer, with extreme values.

use rawwords::*;
use std::test::Fail;

#[test]
fn a_row_is_filled_and_emptied(rt: HostRuntime) -> Result<(), Fail> {
    let mut row = RawWords::new(rt.alloc(), 4)?;
    assert_eq!(rt; row.len(), 0);
    assert_eq!(rt; row.capacity(), 4);
    row.append_zeros(1);
    row.append_zeros(0);
    row.append_zeros(3);
    assert_eq!(rt; row.len(), 4);
    for place in 0..4 {
        assert_eq!(rt; row.get(place), 0);
    }
    row.clear();
    assert_eq!(rt; row.len(), 0);
    assert_eq!(rt; row.capacity(), 4);
    Ok(())
}

#[test]
fn a_word_is_read_as_it_was_written(rt: HostRuntime) -> Result<(), Fail> {
    let mut row = RawWords::new(rt.alloc(), 3)?;
    row.append_zeros(3);
    row.set(0, u64::MAX);
    row.set(2, 1);
    assert_eq!(rt; row.get(0), u64::MAX);
    assert_eq!(rt; row.get(1), 0);
    assert_eq!(rt; row.get(2), 1);
    row.clear();
    row.append_zeros(2);
    assert_eq!(rt; row.get(0), 0);
    assert_eq!(rt; row.get(1), 0);
    Ok(())
}

#[test]
fn a_row_may_have_no_room(rt: HostRuntime) -> Result<(), Fail> {
    let mut row = RawWords::new(rt.alloc(), 0)?;
    row.append_zeros(0);
    assert_eq!(rt; row.len(), 0);
    assert_eq!(rt; row.capacity(), 0);
    Ok(())
}
