//! Laws of the layout of a class file.

ghost use Rattle.std.specs.Prelude.{◌≡◌, ◌++◌, ◌<◌, ℕ, List, length};
ghost use Rattle.jtypes.specs.declared.refusal.Refusal.{Refusal};
ghost use Rattle.jtypes.specs.Layout.{IsLaidOut, Stands};
ghost use Rattle.constpool.specs.Lookup.{Slot};
ghost use Rattle.classfile.specs.declared.class_file.Parts.{Parts};
ghost use Rattle.classfile.specs.Class.{class_file};

/// The same bytes are at most one class.
pub fn one_class()
    ensures { (bytes : List ℕ) (p q : List Slot) (a b : Parts) → IsLaidOut (class_file (length bytes)) bytes (p, a)
        → IsLaidOut (class_file (length bytes)) bytes (q, b) → (p ≡ q) × (a ≡ b) }
{}

/// A refusal applies to each proper prefix of the bytes of a class.
pub fn each_front_is_refused()
    ensures { (front back : List ℕ) (size : ℕ) (p : List Slot) (a : Parts) → IsLaidOut (class_file size) (front ++ back) (p, a)
        → 0 < length back → (r : Refusal) × Stands (class_file size) front r }
{}
