// What a TLV that was found says: its place is 0 where it does not stand, and its value lies within the message.
ghost use Rattle.std.specs.Prelude.{◌+◌, ◌≤◌, ◌≡◌, length};
ghost use Rattle.octets.specs.Be.{be_at};
ghost use Rattle.tlv.specs.Value.{Within, part_at, fec_at, field_at, number_at, id_at, parameters_at, timeout_at, session_at};

use crate::{Fec, Parameters, Part, Session};
use ft_number::{FtNumber, MessageId, Timeout};

// The value's part of the message; from 0 to 0 where the TLV does not stand.
pub fn part_at(m: &[u8], place: usize) -> Part
    requires { Within m.now place (be_at 2 m.now (place + 2)) }
    ensures { result ≡ part_at m.now place }
{
    if place == 0 {
        return Part { start: 0, end: 0 };
    }
    let start = place + 4;
    Part {
        start: start,
        end: start + octets::get_u16(m, place + 2) as usize,
    }
}

// The FEC: absent, or that of the value.
pub fn fec_at(m: &[u8], place: usize) -> Option<Fec>
    requires { Within m.now place (be_at 2 m.now (place + 2)) }
    ensures { result ≡ fec_at m.now place }
{
    if place == 0 {
        return None;
    }
    let start = place + 4;
    let end = start + octets::get_u16(m, place + 2) as usize;
    Some(crate::element::fec_of(&m[start..end]))
}

// The first 32 bits of the value (label, status), or absent.
pub fn field_at(m: &[u8], place: usize) -> Option<u32>
    requires { Within m.now place 4 }
    ensures { result ≡ field_at m.now place }
{
    if place == 0 {
        return None;
    }
    Some(octets::get_u32(m, place + 4))
}

// The FT number, or absent.
pub fn number_at(m: &[u8], place: usize) -> Option<FtNumber>
    requires { Within m.now place 4 }
    ensures { result ≡ number_at m.now place }
{
    if place == 0 {
        return None;
    }
    Some(FtNumber(octets::get_u32(m, place + 4)))
}

// The message ID that lies n bytes into the value, or absent.
pub fn id_at(m: &[u8], place: usize, n: usize) -> Option<MessageId>
    requires { Within m.now place (n + 4) }
    ensures { result ≡ id_at m.now place n }
{
    if place == 0 {
        return None;
    }
    Some(MessageId(octets::get_u32(m, place + 4 + n)))
}

// The KeepAlive time and the maximum PDU length, or absent.
pub fn parameters_at(m: &[u8], place: usize) -> Option<Parameters>
    requires { Within m.now place 14 }
    ensures { result ≡ parameters_at m.now place }
{
    if place == 0 {
        return None;
    }
    let keepalive = octets::get_u16(m, place + 6);
    let pdulength = octets::get_u16(m, place + 10);
    Some(Parameters {
        keepalive,
        pdulength,
    })
}

// The timeout of the FT Session TLV at a place, whose form is known by its length.
fn timeout_at(m: &[u8], place: usize) -> Timeout
    requires { (place + 8 ≤ length m.now) × (place + 4 + be_at 2 m.now (place + 2) ≤ length m.now) }
    ensures { result ≡ timeout_at m.now place }
{
    if octets::get_u16(m, place + 2) == 12 {
        return Timeout::Milliseconds(octets::get_u32(m, place + 8));
    }
    Timeout::Seconds(octets::get_u16(m, place + 6))
}

// The R bit, which stands first in either form, and the timeout, or absent.
pub fn session_at(m: &[u8], place: usize) -> Option<Session>
    requires { Within m.now place 4 × Within m.now place (be_at 2 m.now (place + 2)) }
    ensures { result ≡ session_at m.now place }
{
    if place == 0 {
        return None;
    }
    let reconnect = 2147483648 <= octets::get_u32(m, place + 4);
    let timeout = timeout_at(m, place);
    Some(Session { reconnect, timeout })
}
