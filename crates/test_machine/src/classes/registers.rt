//! The register code of small classes.

use super::class_named;
use std::alloc::{AllocError, Global};
use std::test::Fail;
use vmcode::{LinkedClass, RegInstr};

/// A class, and the blocks and the exits of its register code.
struct Row {
    class: &'static str,
    /// The start of `process` and each branch target: the index in the stack code, and the number of slots in use there.
    blocks: &'static [(usize, u16)],
    /// The stack instructions to which an exit leads, in the order of the register code.
    /// They are those without a register instruction, and the places after a `goto` or a return and before the first block:
    /// an exit ends the code there.
    exits: &'static [u32],
}

static ROWS: [Row; 3] = [
    Row {
        class: "Plus",
        blocks: &[(0, 5)],
        exits: &[0, 13, 14],
    },
    Row {
        class: "Counter",
        blocks: &[(0, 7), (8, 7), (9, 9)],
        exits: &[0, 8, 13, 24, 25],
    },
    Row {
        class: "Ratio",
        blocks: &[(0, 5), (11, 5)],
        exits: &[0, 10, 11, 15, 16],
    },
];

/// Returns whether a block of register code begins at this stack instruction with `depth` slots in use.
/// A block that begins with an exit doesn't count, because it runs as stack code.
fn has_block(code: &LinkedClass, place: usize, depth: u16) -> bool {
    let Some(entry) = code.entries.get(place) else {
        return false;
    };
    match code.reg_code.get(entry.at as usize) {
        None | Some(RegInstr::Leave(_, _, _)) => false,
        Some(_) => entry.depth == depth,
    }
}

/// Returns the stack instructions to which an exit leads, in the order of the register code.
fn exits_of(alloc: Global, code: &LinkedClass) -> Result<Vec<u32>, AllocError> {
    let mut exits = Vec::new(alloc);
    for instr in code.reg_code.as_slice() {
        if let RegInstr::Leave(_, place, _) = instr {
            exits.push(*place)?;
        }
    }
    Ok(exits)
}

#[test]
fn register_code_has_a_block_at_each_join(rt: HostRuntime) {
    for row in ROWS.iter() {
        let Some(class) = class_named(rt.alloc(), row.class) else {
            panic!(rt; "the class is refused");
        };
        for (place, depth) in row.blocks.iter() {
            assert!(rt; has_block(class.linked(), *place, *depth));
        }
    }
}

#[test]
fn register_code_has_no_other_exits(rt: HostRuntime) -> Result<(), Fail> {
    for row in ROWS.iter() {
        let Some(class) = class_named(rt.alloc(), row.class) else {
            panic!(rt; "the class is refused");
        };
        let exits = exits_of(rt.alloc(), class.linked())?;
        assert!(rt; exits.as_slice() == row.exits);
    }
    Ok(())
}
