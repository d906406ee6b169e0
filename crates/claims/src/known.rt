//! The parameters and the ghost state of a counter's table.

use std::marker::Model;

/// The ghost state of a claimer, a `View`. No value of the type is constructed.
pub struct Known;

impl Model for Known {
    ghost use Rattle.std.specs.Coded.{codes};
    ghost use Rattle.claims.specs.Views.{View, hand};
    ghost use Rattle.std.specs.Prelude.{[]};

    ghost Value = { View };

    ghost coded = { Prim.hlevel codes };

    ghost view = { λ _. hand 0 0 0 0 [] };
}

/// The numbers of jobs and of workers of a counter.
#[derive(Drop)]
pub struct Terms {
    pub jobs: usize,
    pub workers: usize,
}
