// A field of sixteen bytes, and the address that it shows.
#![tactic(auto)]

ghost use Rattle.std.specs.Prelude.{◌≡◌};
ghost use Rattle.addresses.specs.Address.{sixteen_at, shown_ip, router_ip};

use models::{Afi, IpAddr};

// The sixteen bytes at a place, as an address has them; all zero where they are not all there.
pub fn sixteen_at(s: &[u8], at: usize) -> [u8; 16]
    ensures { result ≡ sixteen_at s.now at }
{
    let mut bytes = [0; 16];
    if wire::left(s, at) < 16 {
        return bytes;
    }
    bytes.copy_from_slice(&s[at..at + 16]);
    bytes
}

// The address that sixteen bytes of a BMP message show: an IPv4 address stands in the last four (RFC 7854, sections 4.2 and 4.10).
// They are copied as one slice, and not by four stores: the compiler takes an array apart that is used at fixed places, octet by octet.
pub fn shown_ip(afi: Afi, octets: [u8; 16]) -> IpAddr
    ensures { result ≡ shown_ip afi octets }
{
    match afi {
        Afi::Ipv4 => {
            let mut last_four = [0; 16];
            last_four[12..].copy_from_slice(&octets[12..]);
            IpAddr {
                octets: last_four,
                afi,
            }
        }
        Afi::Ipv6 => IpAddr { octets, afi },
    }
}

// The address that sixteen bytes of an OpenBMP header show: there an IPv4 address stands in the first four.
pub fn router_ip(afi: Afi, octets: [u8; 16]) -> IpAddr
    ensures { result ≡ router_ip afi octets }
{
    match afi {
        Afi::Ipv4 => {
            let mut first_four = [0; 16];
            first_four[..4].copy_from_slice(&octets[..4]);
            IpAddr {
                octets: first_four,
                afi,
            }
        }
        Afi::Ipv6 => IpAddr { octets, afi },
    }
}
