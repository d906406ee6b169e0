//! Comparison of pages.

ghost use Rattle.std.specs.Prelude.{◌≡◌};
ghost use Rattle.locals.specs.Fits.{each_fits};

use crate::assignability::assignable;
use jtypes::JType;

/// Returns whether the pages have one length and each type is assignable to the declared one at its index.
pub fn each_assignable(types: &[JType], declared: &[JType]) -> bool
    ensures { result ≡ each_fits types.now declared.now }
{
    if types.len() != declared.len() {
        return false;
    }
    for i in 0..types.len() {
        if !assignable(types[i], declared[i]) {
            return false;
        }
    }
    true
}
