//! Texts of a constant pool.

ghost use Rattle.std.specs.Prelude.{◌≡◌};
ghost use Rattle.std.specs.Option.{option_copied};
ghost use Rattle.verify.specs.Texts.{string_at};

use constpool::{Constant, Pool};

/// Returns the text of the `String` constant at an index (JVMS §4.4.3).
#[tactic(auto, unfolding(crate::specs::Texts::string_at))]
pub fn string(pool: &Pool, i: u16) -> Option<&[u8]>
    ensures { option_copied result ≡ string_at pool.now i }
{
    match pool.constant(i) {
        Some(Constant::String(text)) => pool.utf8(*text),
        _ => None,
    }
}
