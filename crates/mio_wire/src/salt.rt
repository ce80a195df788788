// Salts of greetings.
ghost use Rattle.mx_wire.specs.Tells.{IsSaltByte};

use std::io;
use std::random::RandomSource;

/// Twenty random bytes, each from 0x01 to 0x7F.
pub fn new_salt<R: RandomSource>(rt: &R) -> io::Result<[u8; 20]> {
    let mut salt = [0; 20];
    rt.fill_bytes(&mut salt)?;
    for byte in salt.iter_mut() {
        *byte = salt_byte(*byte);
    }
    Ok(salt)
}

// A byte of a salt, from any byte.
fn salt_byte(byte: u8) -> u8
    ensures { IsSaltByte result }
{
    byte % 127 + 1
}
