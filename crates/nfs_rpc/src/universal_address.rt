//! Turns the universal address of a client's callbacks into a socket address, if the server can connect to it.

ghost use Rattle.std.specs.Prelude.{◌≡◌, ◌↔◌, ◌==◌, ◌<◌, Some, IfSome, length, option_map};
ghost use Rattle.std.specs.List.{position};
ghost use Rattle.nfs_rpc.specs.ReadingAddresses.{number_at, part_at, parts_of, socket_at, universal_at};
ghost use Rattle.nfs_rpc.specs.UniversalAddress.{Names};

use nfs_xdr::Address;
use std::net::{Ipv4Addr, SocketAddrV4};

// The greatest number of digits of a number in a universal address.
const DIGIT_LIMIT: usize = 3;

/// The socket that a client's address names, if the server can call it: that of a `tcp` address over IPv4 whose port
/// isn't 0. Zeros may lead in the address's numbers.
pub fn socket_address(address: &Address) -> Option<SocketAddrV4>
    ensures { (socket : SocketAddrV4) → (result ≡ Some socket) ↔ Names address.now socket }
{
    socket_from(address)
}

fn socket_from(address: &Address) -> Option<SocketAddrV4>
    ensures { option_map parts_of result ≡ socket_at address.now }
{
    if address.netid.as_slice() != b"tcp".as_slice() {
        return None;
    }
    read_universal(address.addr.as_slice())
}

fn read_universal(text: &[u8]) -> Option<SocketAddrV4>
    ensures { option_map parts_of result ≡ universal_at text.now }
{
    let (h1, rest) = read_part(text)?;
    let (h2, rest) = read_part(rest)?;
    let (h3, rest) = read_part(rest)?;
    let (h4, rest) = read_part(rest)?;
    let (p1, rest) = read_part(rest)?;
    let p2 = number_of(rest)?;
    let port = u16::from(p1) * 256 + u16::from(p2);
    if port == 0 {
        return None;
    }
    Some(SocketAddrV4::new(Ipv4Addr::new(h1, h2, h3, h4), port))
}

// The number before the first dot, and the text after the dot.
fn read_part(text: &[u8]) -> Option<(u8, &[u8])>
    ensures { option_map (λ p. (p.0, p.1.now)) result ≡ part_at text.now }
{
    let dot = place_of_dot(text)?;
    let number = number_of(&text[..dot])?;
    Some((number, &text[dot + 1..]))
}

fn place_of_dot(text: &[u8]) -> Option<usize>
    ensures place { result ≡ position (λ byte. byte == 46) text.now }
    ensures within { IfSome result (λ dot. dot < length text.now) }
{
    text.iter().position(|byte| *byte == b'.')
}

// The number that the text is, in one to three decimal digits.
fn number_of(text: &[u8]) -> Option<u8>
    ensures { result ≡ number_at text.now }
{
    if text.is_empty() || text.len() > DIGIT_LIMIT {
        return None;
    }
    let mut value = 0;
    for byte in text {
        value = value * 10 + char::from(*byte).to_digit(10)?;
    }
    u8::try_from(value).ok()
}
