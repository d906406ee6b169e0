//! Puts in a world, when an allocation may be refused.

use jtypes::NoLoader;
use std::test::Fail;
use stripe::{BeginRefusal, Call, OpenRefusal, Tables};
use world::{Applied, Event, World};

/// The number of keys, which are 0 to 63.
const KEYS: usize = 64;

/// Puts each key as its own value. Returns which puts are done; any other was refused for out of memory.
/// Returns `None` if an event has another result.
fn put_all(world: &mut World<'_, NoLoader>) -> Option<[bool; KEYS]> {
    let mut are_put = [false; KEYS];
    for place in 0..KEYS {
        let key = place as i64;
        let call = Call::Put { key, value: key };
        match world.apply(Event::Start { caller: 0, call }) {
            Applied::Done => are_put[place] = true,
            Applied::Refused(BeginRefusal::NoMemory) => continue,
            _ => return None,
        }
        let stripe = place % 2;
        if world.apply(Event::Finish { stripe }) != Applied::Done {
            return None;
        }
    }
    Some(are_put)
}

/// Checks that a key that was put has its own number as its entry, and that any other key has none.
fn has_entries(tables: &Tables, are_put: &[bool; KEYS]) -> bool {
    for (place, is_put) in are_put.iter().enumerate() {
        let key = place as i64;
        let entry = if *is_put { Some(key) } else { None };
        if tables.entry(key) != entry {
            return false;
        }
    }
    true
}

#[test]
fn calls_in_a_world_are_done_or_change_nothing(rt: HostRuntime) -> Result<(), Fail> {
    let alloc = rt.alloc();
    let Ok(tables) = Tables::new(alloc, 2) else {
        return Ok(());
    };
    let mut world = match World::new(alloc, tables, KEYS, &NoLoader) {
        Ok(world) => world,
        Err((refusal, tables)) => {
            assert_eq!(rt; refusal, OpenRefusal::NoMemory);
            assert!(rt; has_entries(&tables, &[false; KEYS]));
            return Ok(());
        }
    };
    let Some(are_put) = put_all(&mut world) else {
        panic!(rt; "a call is not possible");
    };
    let count = are_put.iter().filter(|is_put| **is_put).count();
    assert_eq!(rt; world.finished().len(), count);
    assert!(rt; world.is_idle());
    if world.is_idle() {
        let (tables, _) = world.close();
        assert!(rt; has_entries(&tables, &are_put));
    }
    Ok(())
}
