//! Each operation of an arena, with extreme values.

use arena::*;
use jtypes::{ArrayKind, JavaFault};
use std::test::Fail;

const OUTSIDE: JavaFault = JavaFault::ArrayIndexOutOfBounds;

#[test]
fn arrays_take_their_words(rt: HostRuntime) -> Result<(), Fail> {
    let mut arena = Arena::new(rt.alloc(), 10)?;
    assert_eq!(rt; arena.words_left(), 10);
    assert_eq!(rt; arena.alloc(ArrayKind::Int, 10), Err(WordsFull));
    assert_eq!(rt; arena.alloc(ArrayKind::Int, u32::MAX), Err(WordsFull));
    assert_eq!(rt; arena.alloc(ArrayKind::Int, 3), Ok(0));
    assert_eq!(rt; arena.alloc(ArrayKind::Long, 6), Err(WordsFull));
    assert_eq!(rt; arena.alloc(ArrayKind::Long, 4), Ok(4));
    assert_eq!(rt; arena.words_left(), 1);
    assert_eq!(rt; arena.alloc(ArrayKind::Int, 0), Ok(9));
    assert_eq!(rt; arena.alloc(ArrayKind::Int, 0), Err(WordsFull));

    let mut none = Arena::new(rt.alloc(), 0)?;
    assert_eq!(rt; none.alloc(ArrayKind::Long, 0), Err(WordsFull));
    assert_eq!(rt; none.words_left(), 0);
    Ok(())
}

#[test]
fn an_array_has_its_kind_and_length(rt: HostRuntime) -> Result<(), Fail> {
    let mut arena = Arena::new(rt.alloc(), 10)?;
    let ints = arena.alloc(ArrayKind::Int, 3)?;
    assert_eq!(rt; arena.length(ints), 3);
    assert_eq!(rt; arena.kind(ints), ArrayKind::Int);
    let longs = arena.alloc(ArrayKind::Long, 2)?;
    assert_eq!(rt; arena.length(longs), 2);
    assert_eq!(rt; arena.kind(longs), ArrayKind::Long);
    assert_eq!(rt; arena.length(ints), 3);
    assert_eq!(rt; arena.kind(ints), ArrayKind::Int);
    Ok(())
}

#[test]
fn an_index_outside_is_a_fault(rt: HostRuntime) -> Result<(), Fail> {
    let mut arena = Arena::new(rt.alloc(), 8)?;
    let id = arena.alloc(ArrayKind::Int, 3)?;
    for index in [i32::MIN, -1, 3, i32::MAX] {
        assert_eq!(rt; arena.get(id, index), Err(OUTSIDE));
    }
    assert_eq!(rt; arena.set(id, i32::MIN, 1), Err(OUTSIDE));
    assert_eq!(rt; arena.set(id, -1, 1), Err(OUTSIDE));
    assert_eq!(rt; arena.set(id, 3, 1), Err(OUTSIDE));
    assert_eq!(rt; arena.set(id, i32::MAX, 1), Err(OUTSIDE));
    for index in 0..3 {
        assert_eq!(rt; arena.get(id, index), Ok(0));
    }
    Ok(())
}

#[test]
fn an_int_is_read_as_it_was_written(rt: HostRuntime) -> Result<(), Fail> {
    let mut arena = Arena::new(rt.alloc(), 10)?;
    let first = arena.alloc(ArrayKind::Int, 3)?;
    arena.alloc(ArrayKind::Long, 4)?;
    assert_eq!(rt; arena.set(first, 2, -1), Ok(()));
    assert_eq!(rt; arena.get(first, 0), Ok(0));
    assert_eq!(rt; arena.get(first, 1), Ok(0));
    assert_eq!(rt; arena.get(first, 2), Ok(-1));
    Ok(())
}

#[test]
fn a_long_is_read_as_it_was_written(rt: HostRuntime) -> Result<(), Fail> {
    let mut arena = Arena::new(rt.alloc(), 10)?;
    arena.alloc(ArrayKind::Int, 3)?;
    let second = arena.alloc(ArrayKind::Long, 4)?;
    assert_eq!(rt; arena.set(second, 3, i64::MIN), Ok(()));
    assert_eq!(rt; arena.get(second, 3), Ok(i64::MIN));
    Ok(())
}

#[test]
fn a_new_array_is_zero_after_a_reset(rt: HostRuntime) -> Result<(), Fail> {
    let mut arena = Arena::new(rt.alloc(), 10)?;
    let used = arena.alloc(ArrayKind::Long, 8)?;
    assert_eq!(rt; arena.set(used, 7, -1), Ok(()));
    arena.reset();
    assert_eq!(rt; arena.words_left(), 10);
    let fresh = arena.alloc(ArrayKind::Int, 8)?;
    assert_eq!(rt; fresh, 0);
    for index in 0..8 {
        assert_eq!(rt; arena.get(fresh, index), Ok(0));
    }
    assert_eq!(rt; arena.get(fresh, 8), Err(OUTSIDE));
    assert_eq!(rt; arena.alloc(ArrayKind::Int, 0), Ok(9));
    Ok(())
}
