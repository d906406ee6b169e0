//! The arguments of an invocation.

ghost use Rattle.std.specs.Prelude.{◌≡◌, ◌≤◌, [], length};

use jtypes::{Arg, Args};

/// The arguments of an invocation, at most eight, borrowed from the caller. A call and its record don't copy them.
#[derive(Clone, Copy)]
pub struct ArgSlice<'a> {
    pub items: &'a [Arg],
    pub ghost few: { length items.now ≤ 8 },
}

impl<'a> ArgSlice<'a> {
    ghost use Rattle.std.specs.Prelude.{◌≡◌};
    ghost use Rattle.stripe.specs.Rows.{arguments};

    /// Returns no arguments.
    pub fn none() -> ArgSlice<'a>
        ensures { arguments result ≡ [] }
    {
        ArgSlice { items: &[] }
    }

    /// Borrows all of these arguments.
    pub fn of(args: &'a Args) -> ArgSlice<'a>
        ensures { arguments result ≡ args.now }
    {
        ArgSlice {
            items: args.as_slice(),
        }
    }

    /// Returns the same arguments as `Args`, for a run.
    pub fn args(&self) -> Args
        ensures { result ≡ arguments self.now }
    {
        Args::of(self.items).unwrap()
    }
}
