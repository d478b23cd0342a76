//! Digests compared.

ghost use Rattle.std.specs.Prelude.{◌≡◌};
ghost use Rattle.std.specs.List.{list_any};
ghost use Rattle.std.specs.Str.{bytes_eq};
ghost use Rattle.pws_change.specs.Choices.{null_digest};

use pws_base::shapes::Digest;
use sha2::{Digest as _, Sha256};

/// Whether two digests are one.
pub(crate) fn is_same(a: &Digest, b: &Digest) -> bool
    ensures { result ≡ bytes_eq a.now b.now }
{
    a.as_slice() == b.as_slice()
}

/// Whether a digest is among several.
pub(crate) fn is_among(digests: &[Digest], digest: &Digest) -> bool
    ensures { result ≡ list_any (bytes_eq digest.now) digests.now }
{
    digests.iter().any(|d| is_same(digest, d))
}

/// Whether a digest is Null's, whose text is one byte, 0.
pub(crate) fn is_null(digest: &Digest) -> bool
    ensures { result ≡ bytes_eq digest.now null_digest }
{
    digest.as_slice() == Sha256::digest([0u8].as_slice()).as_slice()
}
