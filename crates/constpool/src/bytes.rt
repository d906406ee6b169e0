//! Comparison of bytes.

ghost use Rattle.std.specs.Prelude.{◌≡◌, option_map};
ghost use Rattle.jtypes.specs.Lists.{same_bytes, after_front};

/// Returns whether two byte slices are equal.
pub fn same_bytes(a: &[u8], b: &[u8]) -> bool
    ensures { result ≡ same_bytes a.now b.now }
{
    a == b
}

/// Returns the bytes after a prefix, or `None` if the bytes don't begin with it.
pub fn after_front<'a>(front: &[u8], bytes: &'a [u8]) -> Option<&'a [u8]>
    ensures { option_map (λ rest. rest.now) result ≡ after_front front.now bytes.now }
{
    bytes.strip_prefix(front)
}
