// The FEC of a message: the wildcard alone, one IPv4 prefix, or any other.
ghost use Rattle.std.specs.Prelude.{◌≤◌, ◌<◌, ◌≡◌, length, get_or};
ghost use Rattle.octets.specs.Be.{be_at};
ghost use Rattle.tlv.specs.Element.{masked_to, is_wildcard, is_prefix, prefix_of, fec_of, entry_by};

use crate::{Fec, Ipv4Prefix};

// A byte of the value; past its end 0.
fn byte_at(value: &[u8], at: usize) -> u32
    ensures { (result ≡ get_or value.now at 0) × (result < 256) }
{
    if at < value.len() {
        return octets::get_u8(value, at) as u32;
    }
    0
}

// The 32 bits from a place of the value on; past its end they are 0.
fn bits_at(value: &[u8], at: usize) -> u32
    requires { at < 256 }
    ensures { result ≡ be_at 4 value.now at }
{
    let first = byte_at(value, at);
    let second = byte_at(value, at + 1);
    let third = byte_at(value, at + 2);
    let last = byte_at(value, at + 3);
    ((first * 256 + second) * 256 + third) * 256 + last
}

// The bits with those past the length zero.
pub fn masked_to(length: u32, bits: u32) -> u32
    requires { length ≤ 32 }
    ensures { result ≡ masked_to length bits }
{
    let past = 32 - length;
    (((bits as u64) >> past) << past) as u32
}

// Whether the value is one element of type 1.
fn is_wildcard(value: &[u8]) -> bool
    ensures { result ≡ is_wildcard value.now }
{
    if value.len() != 1 {
        return false;
    }
    byte_at(value, 0) == 1
}

// Whether the value is one IPv4 prefix element with as many bytes as its length needs, and nothing behind it.
fn is_prefix(value: &[u8]) -> bool
    ensures { result ≡ is_prefix value.now }
{
    if byte_at(value, 0) != 2 {
        return false;
    }
    if byte_at(value, 1) * 256 + byte_at(value, 2) != 1 {
        return false;
    }
    let length = byte_at(value, 3);
    if 32 < length {
        return false;
    }
    value.len() == 4 + ((length + 7) / 8) as usize
}

fn prefix_of(value: &[u8]) -> Ipv4Prefix
    requires { get_or value.now 3 0 ≤ 32 }
    ensures { result ≡ prefix_of value.now }
{
    let length = byte_at(value, 3);
    let bits = masked_to(length, bits_at(value, 4));
    Ipv4Prefix {
        length: length as u8,
        bits: bits,
    }
}

// The FEC of the bytes of a FEC TLV's value.
pub fn fec_of(value: &[u8]) -> Fec
    ensures { result ≡ fec_of value.now }
{
    if is_wildcard(value) {
        return Fec::Wildcard;
    }
    if is_prefix(value) {
        return Fec::Prefix(prefix_of(value));
    }
    Fec::Other
}

// The entry of a FEC in the index: 1, the length and the bits of one IPv4 prefix, as the number of those eight bytes; of every other FEC, and
// where there is none, 0.
pub fn entry_by(fec: Option<Fec>) -> u64
    ensures { result ≡ entry_by fec }
{
    match fec {
        None => 0,
        Some(Fec::Wildcard) => 0,
        Some(Fec::Prefix(prefix)) => {
            0x0100000000000000 + prefix.length as u64 * 0x0001000000000000 + prefix.bits as u64
        }
        Some(Fec::Other) => 0,
    }
}
