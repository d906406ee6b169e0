//! The ghost state and the parameters of the lock table. Only the field `journal` of `Terms` exists at run time.

use jtypes::Loader;
use std::marker::Model;
use std::snapshot::Snapshot;
use stripe::Tables;

/// The ghost state of a seat, a `View`. No value of the type is constructed.
pub struct Known;

impl Model for Known {
    ghost use Rattle.std.specs.Coded.{codes};
    ghost use Rattle.stripe.specs.Stored.{stored_code};
    ghost use Rattle.cache.specs.Views.{View, first_view};

    ghost Value = { View };

    ghost coded = { Prim.hlevel (codes, stored_code) };

    ghost view = { λ _. first_view };
}

/// The parameters that a cache was opened with: its tables, the most records of each stripe's history, and its loader.
#[derive(Drop)]
pub struct Terms<L: Loader> {
    pub tables: Snapshot<Tables>,
    pub journal: usize,
    pub loader: Snapshot<L>,
}
