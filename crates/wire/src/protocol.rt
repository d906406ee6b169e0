//! Protocols.

ghost use Rattle.std.specs.Prelude.{◌≡◌, List, true, false};
ghost use Rattle.jtypes.specs.declared.types.Arg.{Arg};
ghost use Rattle.wire.specs.Requests.{with_args};
ghost use Rattle.wire.specs.Frames.{Knows};

use crate::Request;

/// The protocol of a stream. Protocol 2 has all requests of protocol 1, and those of the kinds above 8.
#[derive(Clone, Copy, Debug, PartialEq, Eq)]
pub enum Protocol {
    One,
    Two,
}

impl Protocol {
    /// Returns whether the protocol has requests of this kind.
    pub fn knows(self, request: &Request) -> bool
        ensures yes { (args : List Arg) → result ≡ true → Knows self (with_args args request.now) }
        ensures no { (args : List Arg) → result ≡ false → Knows self (with_args args request.now) → ⊥ }
    {
        match self {
            Protocol::Two => true,
            Protocol::One => !matches!(request, Request::Version | Request::Forget { .. }),
        }
    }
}
