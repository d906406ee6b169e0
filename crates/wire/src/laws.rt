//! Laws of frames.

ghost use Rattle.std.specs.Prelude.{◌≡◌, ℕ, List};
ghost use Rattle.wire.specs.Frames.{Front, IsFront};
ghost use Rattle.wire.specs.declared.protocol.Protocol.{Protocol};

/// Law: in each protocol a byte sequence has at most one front, which is the end, a whole frame or a fault.
pub fn one_front()
    ensures once { (p : Protocol) (bytes : List ℕ) (f g : Front) → IsFront p bytes f → IsFront p bytes g → f ≡ g }
{}
