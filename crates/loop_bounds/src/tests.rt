use crate::found::{begin, exceeds};
use crate::{Answer, Listing, VALUE_LIMIT, have_places, list_nodes};
use constpool::{Pool, read_pool};
use decode::decode;
use frames::{Environment, Signature};
use jtypes::{Items, Refusal};
use search::{Node, Point};
use std::alloc::Global;
use std::test::Fail;
use typecheck::Typed;

/// A method without parameters and calls.
fn method(alloc: Global, pool: &Pool, bytes: &[u8], max_locals: u16) -> Result<Typed, Refusal> {
    Ok(Typed {
        number: 0,
        is_process: true,
        environment: Environment {
            signature: Signature {
                params: Items::new(Vec::new(alloc)),
                result: None,
                is_boolean: false,
            },
            max_stack: 2,
            max_locals,
        },
        code: decode(alloc, bytes, pool)?,
        calls: Vec::new(alloc),
        declared: Vec::new(alloc),
    })
}

/// The answer for a class with one method of this code, or `None` if it isn't found.
fn answer_for(alloc: Global, bytes: &[u8]) -> Result<Option<Answer>, Refusal> {
    let (pool, _) = read_pool(alloc, &[0, 1])?;
    let mut methods = Vec::new(alloc);
    methods.push(method(alloc, &pool, bytes, 3)?)?;
    if have_places(&methods) {
        Ok(Some(list_nodes(alloc, &methods, 0)?))
    } else {
        Ok(None)
    }
}

/// The nodes, and the steps, slots and depth, of a class with one method of this code.
fn listed(alloc: Global, bytes: &[u8]) -> Result<Option<(usize, u32, u32, u32)>, Refusal> {
    match answer_for(alloc, bytes)? {
        Some(Answer::Listed(Listing { points, costs, .. })) => match costs.first() {
            Some(x) => Ok(Some((points.len(), x.steps, x.slots, x.depth))),
            None => Ok(None),
        },
        _ => Ok(None),
    }
}

#[test]
fn straight_code_has_a_node_for_each_pc(rt: HostRuntime) -> Result<(), Fail> {
    // aconst_null, areturn
    assert!(rt; listed(rt.alloc(), &[0x01, 0xb0])? == Some((2, 2, 5, 1)));
    Ok(())
}

#[test]
fn the_longer_way_counts(rt: HostRuntime) -> Result<(), Fail> {
    // aload_2, ifnull 6, nop, nop, aconst_null, areturn
    let bytes = [0x2c, 0xc6, 0, 5, 0x00, 0x00, 0x01, 0xb0];
    assert!(rt; listed(rt.alloc(), &bytes)? == Some((6, 6, 5, 1)));
    Ok(())
}

#[test]
fn code_that_goes_on_past_its_end_is_a_dead_end(rt: HostRuntime) -> Result<(), Fail> {
    assert!(rt; matches!(answer_for(rt.alloc(), &[0x01])?, Some(Answer::DeadEnd)));
    Ok(())
}

#[test]
fn equal_targets_of_a_switch_are_one_node(rt: HostRuntime) -> Result<(), Fail> {
    // iload_2, tableswitch 0 and 1 and default to 24, aconst_null, areturn
    let bytes = [
        0x1c, 0xaa, 0, 0, 0, 0, 0, 23, 0, 0, 0, 0, 0, 0, 0, 1, 0, 0, 0, 23, 0, 0, 0, 23, 0x01, 0xb0,
    ];
    assert!(rt; listed(rt.alloc(), &bytes)? == Some((4, 4, 5, 1)));
    Ok(())
}

#[test]
fn there_are_limits_only_where_a_branch_leads_back(rt: HostRuntime) -> Result<(), Fail> {
    let node = Node {
        place: 0,
        locals: Vec::new(rt.alloc()),
        operands: Vec::new(rt.alloc()),
    };
    let mut found = begin(rt.alloc(), Point { method: 0, node })?;
    assert!(rt; !exceeds(&found, true));
    found.values = VALUE_LIMIT;
    assert!(rt; !exceeds(&found, true));
    found.values = VALUE_LIMIT + 1;
    assert!(rt; exceeds(&found, true) && !exceeds(&found, false));
    Ok(())
}
