//! Classes defined by threads.

ghost use Rattle.std.specs.Prelude.{All, IfOk};
ghost use Rattle.registry.specs.Ids.{IsOf};

use jtypes::Refusal;
use registry::{ClassId, Registry};
use rowclasses as rows;
use std::alloc::Global;
use std::sync::Wait;
use std::test::Fail;
use std::thread::join;

/// Defines a class 50 times, and returns its ids.
fn defined<R: Wait>(
    rt: &R,
    alloc: Global,
    registry: &Registry,
    bytes: &[u8],
) -> Result<Vec<ClassId>, Refusal>
    ensures { IfOk result (λ ids. All (λ id. IsOf registry.now id) ids.items) }
{
    let mut ids = Vec::new(alloc);
    for _ in 0..50 {
        let id = registry.define(rt, alloc, bytes)?;
        if ids.push(id).is_err() {
            return Err(Refusal::NoMemory);
        }
    }
    Ok(ids)
}

/// Returns how many of these ids have a class with this bound on steps.
fn of_steps(registry: &Registry, ids: &[ClassId], steps: u32) -> usize
    requires { All (λ id. IsOf registry.now id) ids.now }
{
    ids.iter()
        .filter(|id| registry.class(id).bounds().steps == steps)
        .count()
}

#[test]
fn an_id_gives_its_class(rt: HostRuntime) -> Result<(), Fail> {
    let alloc = rt.alloc();
    let registry = Registry::new(alloc)?;
    let Ok(plus) = registry.define(&rt, alloc, &rows::plus(alloc)?) else {
        panic!(rt; "plus is refused");
    };
    let Ok(counter) = registry.define(&rt, alloc, &rows::counter(alloc)?) else {
        panic!(rt; "counter is refused");
    };
    assert_eq!(rt; registry.class(&plus).bounds().steps, 14);
    assert_eq!(rt; registry.class(&counter).bounds().steps, 24);
    assert_eq!(rt; registry.class(&counter).bounds().slots, 11);
    let refused = match registry.define(&rt, alloc, &[]) {
        Ok(_) => None,
        Err(refusal) => Some(refusal),
    };
    assert_eq!(rt; refused, Some(Refusal::Truncated));
    Ok(())
}

#[test]
fn four_threads_define(rt: HostRuntime) -> Result<(), Fail> {
    let alloc = rt.alloc();
    let registry = Registry::new(alloc)?;
    let bytes = rows::plus(alloc)?;
    let ((first, second), (third, fourth)) = join(
        &rt,
        || {
            join(
                &rt,
                || defined(&rt, alloc, &registry, &bytes),
                || defined(&rt, alloc, &registry, &bytes),
            )
        },
        || {
            join(
                &rt,
                || defined(&rt, alloc, &registry, &bytes),
                || defined(&rt, alloc, &registry, &bytes),
            )
        },
    );
    let (Ok(first), Ok(second), Ok(third), Ok(fourth)) = (first, second, third, fourth) else {
        panic!(rt; "a class is refused");
    };
    for ids in [&first, &second, &third, &fourth] {
        assert_eq!(rt; of_steps(&registry, ids, 14), 50);
    }
    Ok(())
}
