//! `Table` as a loader, and table files.

use jtypes::{LoadAnswer, Loader};
use std::alloc::{AllocError, Global};
use std::test::Fail;
use table_loader::{Pair, Table};

fn table(alloc: Global) -> Result<Table, AllocError> {
    let mut rows = Vec::new(alloc);
    for (key, value) in [(7, 1), (9, 0), (-3, 5), (7, 41), (12, i64::MIN)] {
        rows.push(Pair { key, value })?;
    }
    Table::of(rows)
}

#[test]
fn the_last_row_of_a_key_counts(rt: HostRuntime) -> Result<(), Fail> {
    let table = table(rt.alloc())?;
    for (key, value) in [
        (7, Some(41)),
        (9, Some(0)),
        (-3, Some(5)),
        (12, Some(i64::MIN)),
        (8, None),
        (i64::MAX, None),
        (i64::MIN, None),
    ] {
        assert_eq!(rt; table.find(key), value, "at {key}");
    }
    Ok(())
}

#[test]
fn a_table_is_a_loader(rt: HostRuntime) -> Result<(), Fail> {
    let table = table(rt.alloc())?;
    assert!(rt; Table::ASKS);
    assert_eq!(rt; LoadAnswer::of(table.load(7)), LoadAnswer::Value(41));
    assert_eq!(rt; LoadAnswer::of(table.load(8)), LoadAnswer::None);
    Ok(())
}

/// A table file: key 7 has the value 41, key -1 has `i64::MIN`.
static FILE: [u8; 32] = [
    0, 0, 0, 0, 0, 0, 0, 7, 0, 0, 0, 0, 0, 0, 0, 0x29, 0xFF, 0xFF, 0xFF, 0xFF, 0xFF, 0xFF, 0xFF,
    0xFF, 0x80, 0, 0, 0, 0, 0, 0, 0,
];

/// Returns the values of the keys 7 and -1 in a table file, `None` if its length isn't that of whole pairs.
fn values(alloc: Global, file: &[u8]) -> Result<Option<[Option<i64>; 2]>, AllocError> {
    match Table::read(alloc, file)? {
        Some(table) => Ok(Some([table.find(7), table.find(-1)])),
        None => Ok(None),
    }
}

#[test]
fn files_of_whole_rows_are_read(rt: HostRuntime) -> Result<(), Fail> {
    let alloc = rt.alloc();
    for length in 0..33 {
        let wanted = match length {
            0 => Some([None, None]),
            16 => Some([Some(41), None]),
            32 => Some([Some(41), Some(i64::MIN)]),
            _ => None,
        };
        assert_eq!(rt; values(alloc, &FILE[..length])?, wanted, "at {length}");
    }
    Ok(())
}
