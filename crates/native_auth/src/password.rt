// What proves that a password is known.
ghost use Rattle.std.specs.Prelude.{◌≡◌, ◌↔◌, IsTrue};
ghost use Rattle.native_auth.specs.Native.{xor_bytes, scramble, answer_of, bytes_of};

use crate::answers::Answer;
use sha1::Sha1;

/// The answer of mysql_native_password to a salt (client/server protocol, "Native Authentication"). Takes no memory.
pub fn answer(password: &[u8], salt: &[u8; 20]) -> Answer
    ensures { result ≡ answer_of password.now salt.now }
{
    if password.is_empty() {
        return Answer::Empty;
    }
    Answer::Bytes(scramble(password, salt))
}

/// Whether the given bytes are the answer to the salt for this password; an empty password takes the empty answer
/// alone (client/server protocol, "Native Authentication"). Takes no memory.
pub fn check(password: &[u8], salt: &[u8; 20], given: &[u8]) -> bool
    ensures { IsTrue result ↔ (given.now ≡ bytes_of (answer_of password.now salt.now)) }
{
    match answer(password, salt) {
        Answer::Empty => given.is_empty(),
        Answer::Bytes(bytes) => given == bytes.as_slice(),
    }
}

// What proves that a password is known which isn't empty.
#[tactic(auto, unfolding(crate::specs::Native::scramble))]
fn scramble(password: &[u8], salt: &[u8; 20]) -> [u8; 20]
    ensures { result ≡ scramble password.now salt.now }
{
    let once = Sha1::digest(password);
    let twice = Sha1::digest(&once);
    let mut hasher = Sha1::new();
    hasher.update(salt);
    hasher.update(&twice);
    xor(once, &hasher.finalize())
}

// Byte by byte.
fn xor(mut bytes: [u8; 20], others: &[u8; 20]) -> [u8; 20]
    ensures { result ≡ xor_bytes bytes others.now }
{
    for (i, other) in others.iter().enumerate() {
        bytes[i] ^= *other;
    }
    bytes
}
