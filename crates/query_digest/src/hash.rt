// The hash of a digest.
ghost use Rattle.std.specs.Prelude.{◌≡◌};
ghost use Rattle.query_digest.specs.Hash.{hash_of};

use sha1::Sha1;

/// The first eight bytes of the SHA-1 of a digest, the first byte highest. Takes no memory.
pub fn digest_hash(digest: &[u8]) -> u64
    ensures { result ≡ hash_of digest.now }
{
    let [a, b, c, d, e, f, g, h, ..] = Sha1::digest(digest);
    u64::from_be_bytes([a, b, c, d, e, f, g, h])
}
