//! HMAC with SHA-256 (RFC 2104, FIPS 180-4), without memory.

ghost use Rattle.std.specs.Prelude.{◌≡◌, ◌++◌, ◌≤◌, drop, length};
ghost use Rattle.pws_auth.specs.Hmac.{block_of_key, hmac, xor_each};

use pws_base::shapes::Tag;
use sha2::{Digest, Sha256};

/// Writes bytes over the front of a block.
fn put_front(block: &mut [u8], bytes: &[u8])
    requires { length bytes.now ≤ length block.old }
    ensures { block.new ≡ bytes.now ++ drop (length bytes.now) block.old }
{
    block[..bytes.len()].copy_from_slice(bytes);
}

/// A key as one block: one that is longer is hashed first, and zeros fill the rest.
fn block_of_key(key: &[u8]) -> [u8; 64]
    ensures { result ≡ block_of_key key.now }
{
    let mut block = [0; 64];
    if key.len() <= 64 {
        put_front(&mut block, key);
    } else {
        put_front(&mut block, &Sha256::digest(key));
    }
    block
}

/// A block with each of its bytes xored with a pad.
fn xor_each(block: &[u8; 64], pad: u8) -> [u8; 64]
    ensures { result ≡ xor_each pad block.now }
{
    let mut xored = *block;
    for byte in xored.iter_mut() {
        *byte ^= pad;
    }
    xored
}

/// The HMAC of two pieces that are taken as one text.
pub(crate) fn hmac_of_pieces(key: &[u8], first: &[u8], second: &[u8]) -> Tag
    ensures { result ≡ hmac key.now (first.now ++ second.now) }
{
    let block = block_of_key(key);
    let mut inner = Sha256::new();
    inner.update(xor_each(&block, 0x36));
    inner.update(first);
    inner.update(second);
    let mut outer = Sha256::new();
    outer.update(xor_each(&block, 0x5c));
    outer.update(inner.finalize());
    outer.finalize()
}

/// The HMAC with SHA-256 of a text under a key of any length.
pub fn hmac(key: &[u8], text: &[u8]) -> Tag
    ensures { result ≡ hmac key.now text.now }
{
    hmac_of_pieces(key, text, &[])
}
