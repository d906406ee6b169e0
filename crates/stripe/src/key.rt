//! The map from keys to stripes.

ghost use Rattle.std.specs.Prelude.{◌≡◌, ◌<◌, ◌≤◌};
ghost use Rattle.stripe.specs.History.{stripe_of};

/// The maximum number of stripes.
pub const MOST_STRIPES: usize = 64;

/// Returns the index of a key's stripe, of `stripes` stripes: the nonnegative remainder. The cases 16, 32 and 64 need no division.
pub fn stripe_of(stripes: usize, key: i64) -> usize
    requires some { 0 < stripes }
    requires few { stripes ≤ 64 }
    ensures stripe { result ≡ stripe_of stripes key }
    ensures within { result < stripes }
{
    let rest = match stripes {
        16 => key.rem_euclid(16),
        32 => key.rem_euclid(32),
        64 => key.rem_euclid(64),
        _ => key.rem_euclid(stripes as i64),
    };
    rest as usize
}
