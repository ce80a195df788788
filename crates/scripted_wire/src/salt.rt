// Salts of links.
ghost use Rattle.std.specs.Prelude.{◌≡◌};
ghost use Rattle.mx_wire.specs.Tells.{IsSalt, IsSaltByte};
ghost use Rattle.scripted_wire.specs.Salts.{salt_byte, salt_of};

/// The salt of the link of this number. Each byte is from 1 to 127, as in a text that a NUL ends.
pub fn salt_of(number: u64) -> [u8; 20]
    ensures is { result ≡ salt_of number }
    ensures salted { IsSalt result }
{
    [
        salt_byte(number),
        salt_byte(number / 127),
        salt_byte(number / 16_129),
        salt_byte(number / 2_048_383),
        b'e',
        b'f',
        b'g',
        b'h',
        b'i',
        b'j',
        b'k',
        b'l',
        b'm',
        b'n',
        b'o',
        b'p',
        b'q',
        b'r',
        b's',
        b't',
    ]
}

fn salt_byte(number: u64) -> u8
    ensures is { result ≡ salt_byte number }
    ensures salted { IsSaltByte result }
{
    (number % 127) as u8 + 1
}
