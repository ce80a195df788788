// IPv4 addresses, with and without a port.
ghost use Rattle.std.specs.Prelude.{◌≡◌};
ghost use Rattle.mx_config.specs.Address.{ipv4, address};

use mx_base::{Address, four_pieces, read_number_to, two_pieces};

/// The address that `a.b.c.d:port` spells, None where the text isn't of that form.
#[tactic(auto, unfolding(crate::specs::Address::address))]
pub(crate) fn read_address(text: &[u8]) -> Option<Address>
    ensures { result ≡ address text.now }
{
    let (host, port) = two_pieces(b":", Some(text))?;
    let ip = read_ipv4(host)?;
    let port = read_number_to(65_535, port)? as u16;
    Some(Address { ip, port })
}

/// The four numbers that `a.b.c.d` spells, None where the text isn't of that form.
#[tactic(auto, unfolding(crate::specs::Address::ipv4))]
pub(crate) fn read_ipv4(text: &[u8]) -> Option<[u8; 4]>
    ensures { result ≡ ipv4 text.now }
{
    let (a, b, c, d) = four_pieces(b".", Some(text))?;
    let a = read_number_to(255, a)? as u8;
    let b = read_number_to(255, b)? as u8;
    let c = read_number_to(255, c)? as u8;
    let d = read_number_to(255, d)? as u8;
    Some([a, b, c, d])
}
