//! The order of digests.

ghost use Rattle.std.specs.Prelude.{◌≡◌};
ghost use Rattle.std.specs.Str.{bytes_eq};
ghost use Rattle.pws_change.specs.Rising.{is_digest_below, is_digest_at_most};

use pws_base::shapes::Digest;

/// Whether two digests are one.
pub(crate) fn is_same(a: &Digest, b: &Digest) -> bool
    ensures { result ≡ bytes_eq a.now b.now }
{
    a.as_slice() == b.as_slice()
}

/// Whether a digest is below another, by the first byte in which they differ.
pub(crate) fn is_below(a: &Digest, b: &Digest) -> bool
    ensures { result ≡ is_digest_below a.now b.now }
{
    a.as_slice().cmp(b.as_slice()).is_lt()
}

/// Whether a digest is below another, or is that digest.
pub(crate) fn is_at_most(a: &Digest, b: &Digest) -> bool
    ensures { result ≡ is_digest_at_most a.now b.now }
{
    a.as_slice().cmp(b.as_slice()).is_le()
}
