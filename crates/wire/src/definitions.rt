//! The definitions that this crate's contracts cite.

ghost use Rattle.std.specs.Prelude.{◌≡◌, ℕ, List};
ghost use Rattle.wire.specs.Requests.{Request};
ghost use Rattle.wire.specs.declared.reply.Reply.{Reply};
ghost use Rattle.wire.specs.declared.protocol.Protocol.{Protocol};
ghost use Rattle.wire.specs.Frames.{Front, IsFront, frame, reply_text};

/// Names the definitions, so that each check elaborates them.
pub fn all_definitions()
    ensures fronts { (p : Protocol) (bytes : List ℕ) (f : Front) → IsFront p bytes f → IsFront p bytes f }
    ensures replies { (r : Reply) → frame (reply_text r) ≡ frame (reply_text r) }
{}
