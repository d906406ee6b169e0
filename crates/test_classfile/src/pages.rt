//! Types of local variables that are written, kept, entered and compared.

use jtypes::{JType, RefType};
use locals::*;
use std::alloc::Global;
use std::process::Abort;

const NUMBER: JType = JType::Ref(RefType::Number);

const BOXED: JType = JType::Ref(RefType::Long);

/// Returns `count` local variables of type top; panics when out of memory.
fn blank(rt: &impl Abort, alloc: Global, count: usize) -> Locals {
    let Ok(locals) = Locals::new(alloc, count) else {
        panic!(rt; "no memory");
    };
    locals
}

/// Writes these types from index `at`; panics if there is no such local variable, or when out of memory.
fn put(rt: &impl Abort, locals: &mut Locals, at: usize, types: &[JType]) {
    assert!(rt; at < 65_536 && 0 < types.len() && types.len() < 65_536);
    let Some(_) = locals.get(at + types.len() - 1) else {
        panic!(rt; "no such local");
    };
    let Ok(()) = locals.put(at, types) else {
        panic!(rt; "no memory");
    };
}

/// Writes the type of local variable `n`; panics if there is no such local variable, or when out of memory.
fn set(rt: &impl Abort, locals: &mut Locals, n: usize, t: JType) {
    let Some(_) = locals.get(n) else {
        panic!(rt; "no such local");
    };
    let Ok(()) = locals.set(n, t) else {
        panic!(rt; "no memory");
    };
}

fn keep(rt: &impl Abort, locals: &mut Locals) {
    let Ok(()) = locals.keep() else {
        panic!(rt; "no memory");
    };
}

fn enter(rt: &impl Abort, locals: &mut Locals, number: usize) {
    assert!(rt; number < locals.kept_len());
    locals.enter(number);
}

fn fits(rt: &impl Abort, locals: &mut Locals, number: usize) -> bool {
    assert!(rt; number < locals.kept_len());
    locals.fits(number)
}

/// Checks that the local variables are exactly these runs, each a count and a type.
fn are(locals: &Locals, runs: &[(usize, JType)]) -> bool {
    let mut at = 0usize;
    for (count, t) in runs {
        for _ in 0..*count {
            if locals.get(at) != Some(*t) {
                return false;
            }
            at = at.wrapping_add(1);
        }
    }
    locals.get(at).is_none()
}

#[test]
fn a_new_row_is_blank(rt: HostRuntime) {
    for count in [0, 1, 255, 256, 257, 65_535] {
        let locals = blank(&rt, rt.alloc(), count);
        assert_eq!(rt; locals.kept_len(), 0);
        assert_eq!(rt; locals.get(count), None, "of {count}");
        for n in [0, 254, 255, 256, 511, 512, 65_279, 65_280, 65_534] {
            let there = if n < count { Some(JType::Top) } else { None };
            assert_eq!(rt; locals.get(n), there, "{n} of {count}");
        }
    }
}

#[test]
fn a_type_is_set_in_its_page(rt: HostRuntime) {
    let mut locals = blank(&rt, rt.alloc(), 600);
    set(&rt, &mut locals, 0, JType::Int);
    set(&rt, &mut locals, 255, JType::Long);
    set(&rt, &mut locals, 256, NUMBER);
    set(&rt, &mut locals, 599, JType::Null);
    let ends = [
        (1, JType::Int),
        (254, JType::Top),
        (1, JType::Long),
        (1, NUMBER),
        (342, JType::Top),
        (1, JType::Null),
    ];
    assert!(rt; are(&locals, &ends));
}

#[test]
fn types_are_put_over_the_border_of_a_page(rt: HostRuntime) {
    let mut locals = blank(&rt, rt.alloc(), 600);
    put(
        &rt,
        &mut locals,
        254,
        &[JType::Int, JType::Long, JType::Null, NUMBER],
    );
    let four = [
        (254, JType::Top),
        (1, JType::Int),
        (1, JType::Long),
        (1, JType::Null),
        (1, NUMBER),
        (342, JType::Top),
    ];
    assert!(rt; are(&locals, &four));
}

#[test]
fn a_full_row_is_written_over(rt: HostRuntime) {
    let mut locals = blank(&rt, rt.alloc(), 600);
    put(&rt, &mut locals, 0, &[JType::Int; 600]);
    assert!(rt; are(&locals, &[(600, JType::Int)]));
    put(&rt, &mut locals, 0, &[JType::Null; 600]);
    put(&rt, &mut locals, 100, &[JType::Long; 440]);
    assert!(rt;
        are(
            &locals,
            &[(100, JType::Null), (440, JType::Long), (60, JType::Null)]
        )
    );
}

#[test]
fn types_that_are_there_change_nothing(rt: HostRuntime) {
    let mut locals = blank(&rt, rt.alloc(), 600);
    put(&rt, &mut locals, 250, &[JType::Int; 10]);
    keep(&rt, &mut locals);
    put(&rt, &mut locals, 250, &[JType::Int; 10]);
    set(&rt, &mut locals, 259, JType::Int);
    assert!(rt;
        are(
            &locals,
            &[(250, JType::Top), (10, JType::Int), (340, JType::Top)]
        )
    );
    assert!(rt; fits(&rt, &mut locals, 0));

    // The first page is unchanged, the second has one more type.
    put(&rt, &mut locals, 250, &[JType::Int; 11]);
    assert!(rt;
        are(
            &locals,
            &[(250, JType::Top), (11, JType::Int), (339, JType::Top)]
        )
    );
    enter(&rt, &mut locals, 0);
    assert!(rt;
        are(
            &locals,
            &[(250, JType::Top), (10, JType::Int), (340, JType::Top)]
        )
    );
}

#[test]
fn a_kept_row_is_entered(rt: HostRuntime) {
    let mut locals = blank(&rt, rt.alloc(), 300);
    keep(&rt, &mut locals);
    put(&rt, &mut locals, 255, &[JType::Int, JType::Long]);
    keep(&rt, &mut locals);
    set(&rt, &mut locals, 0, JType::Null);
    keep(&rt, &mut locals);
    assert_eq!(rt; locals.kept_len(), 3);

    enter(&rt, &mut locals, 1);
    assert!(rt;
        are(
            &locals,
            &[
                (255, JType::Top),
                (1, JType::Int),
                (1, JType::Long),
                (43, JType::Top)
            ]
        )
    );
    set(&rt, &mut locals, 256, NUMBER);
    enter(&rt, &mut locals, 0);
    assert!(rt; are(&locals, &[(300, JType::Top)]));
    enter(&rt, &mut locals, 2);
    assert!(rt;
        are(
            &locals,
            &[
                (1, JType::Null),
                (254, JType::Top),
                (1, JType::Int),
                (1, JType::Long),
                (43, JType::Top)
            ]
        )
    );
    assert_eq!(rt; locals.kept_len(), 3);
}

#[test]
fn a_fit_is_found_and_found_again(rt: HostRuntime) {
    let mut locals = blank(&rt, rt.alloc(), 300);
    put(&rt, &mut locals, 255, &[NUMBER; 2]);
    keep(&rt, &mut locals);
    put(&rt, &mut locals, 255, &[BOXED, JType::Null]);
    keep(&rt, &mut locals);
    for _ in 0..2 {
        assert!(rt; fits(&rt, &mut locals, 0));
        assert!(rt; fits(&rt, &mut locals, 1));
    }

    // The reverse doesn't fit, and `fits` changes no local variables.
    enter(&rt, &mut locals, 0);
    for _ in 0..2 {
        assert!(rt; fits(&rt, &mut locals, 0));
        assert!(rt; !fits(&rt, &mut locals, 1));
    }
    assert!(rt; are(&locals, &[(255, JType::Top), (2, NUMBER), (43, JType::Top)]));
}

#[test]
fn a_misfit_is_found_in_the_second_page(rt: HostRuntime) {
    let mut locals = blank(&rt, rt.alloc(), 600);
    set(&rt, &mut locals, 300, NUMBER);
    keep(&rt, &mut locals);
    set(&rt, &mut locals, 300, BOXED);
    assert!(rt; fits(&rt, &mut locals, 0));
    set(&rt, &mut locals, 300, JType::Int);
    for _ in 0..2 {
        assert!(rt; !fits(&rt, &mut locals, 0));
    }
    set(&rt, &mut locals, 300, JType::Null);
    assert!(rt; fits(&rt, &mut locals, 0));
    set(&rt, &mut locals, 599, JType::Long);
    assert!(rt; fits(&rt, &mut locals, 0));
}
