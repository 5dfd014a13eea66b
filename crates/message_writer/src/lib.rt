// The messages that we write: our Init, KeepAlive, and a stored message with its FT TLVs.
#![tactic(auto)]

ghost use Rattle.std.specs.Prelude.{◌+◌, ◌-◌, ◌≤◌, ◌++◌, ◌≡◌, length};
ghost use Rattle.octets.specs.Be.{bytes};
ghost use Rattle.octets.specs.Laid.{laid};
ghost use Rattle.tlv.specs.Tlv.{session_type, protection_type};
ghost use Rattle.message_writer.specs.Forms.{tlv_bytes, head_bytes, mode_byte, parameters_tlv, reconnect_flag, draft_value, published_value, unknown_bit, session_tlv, session_end, init_head, init_bytes, keepalive_bytes, raised_to, protected_bytes};
ghost use Rattle.message_writer.specs.Written.{written_of};

use ft_number::{FtNumber, MessageId, Timeout};

// What our Init proposes: KeepAlive time, maximum PDU length, the receiver's LDP identifier (LSR ID and label space), and whether labels
// are asked for before they are offered (downstream on demand, bit A).
#[derive(Clone, Copy)]
pub struct OwnParameters {
    pub keepalive: u16,
    pub pdulength: u16,
    pub lsr: u32,
    pub space: u16,
    pub ondemand: bool,
}

// Writes a message's head.
fn put_head(out: &mut [u8], number: u16, size: u16, id: u32)
    requires { 8 ≤ length out.old }
    ensures { out.new ≡ laid out.old 0 (head_bytes number size id) }
{
    octets::put_u16(out, 0, number);
    octets::put_u16(out, 2, size);
    octets::put_u32(out, 4, id);
}

// Writes a TLV with a value of 32 bits.
fn put_tlv(out: &mut [u8], at: usize, number: u16, value: u32)
    requires { at + 8 ≤ length out.old }
    ensures { out.new ≡ laid out.old at (tlv_bytes number (bytes 4 value)) }
{
    octets::put_u16(out, at, number);
    octets::put_u16(out, at + 2, 4);
    octets::put_u32(out, at + 4, value);
}

// The byte of the A and D bits.
fn mode_byte(ondemand: bool) -> u8
    ensures { result ≡ mode_byte ondemand }
{
    if ondemand {
        return 0x80;
    }
    0
}

// Writes the Common Session Parameters behind an Init's head.
fn put_parameters(out: &mut [u8], p: OwnParameters)
    requires { 26 ≤ length out.old }
    ensures { out.new ≡ laid out.old 8 (parameters_tlv p) }
{
    octets::put_u32(out, 8, 0x0500000E);
    octets::put_u16(out, 12, 1);
    octets::put_u16(out, 14, p.keepalive);
    octets::put_u8(out, 16, mode_byte(p.ondemand));
    octets::put_u8(out, 17, 0);
    octets::put_u16(out, 18, p.pdulength);
    octets::put_u32(out, 20, p.lsr);
    octets::put_u16(out, 24, p.space);
}

// The flags of FT Session: R, set where there is an ACK.
fn reconnect_flag(ack: Option<FtNumber>) -> u16
    ensures { result ≡ reconnect_flag ack }
{
    match ack {
        None => 0,
        Some(_) => 0x8000,
    }
}

// Where an Init's FT Session ends, in the form of its timeout.
fn session_end(timeout: Timeout) -> usize
    ensures { result ≡ session_end timeout }
{
    match timeout {
        Timeout::Seconds(_) => 34,
        Timeout::Milliseconds(_) => 42,
    }
}

// Writes the draft's FT Session behind an Init's parameters.
fn put_draft(out: &mut [u8], flags: u16, seconds: u16)
    requires { 34 ≤ length out.old }
    ensures { out.new ≡ laid out.old 26 (tlv_bytes (unknown_bit + session_type) (draft_value flags seconds)) }
{
    octets::put_u32(out, 26, 0x85030004);
    octets::put_u16(out, 30, flags);
    octets::put_u16(out, 32, seconds);
}

// Writes the published FT Session there, reserved bytes and recovery time zero.
fn put_published(out: &mut [u8], flags: u16, milliseconds: u32)
    requires { 42 ≤ length out.old }
    ensures { out.new ≡ laid out.old 26 (tlv_bytes (unknown_bit + session_type) (published_value flags milliseconds)) }
{
    octets::put_u32(out, 26, 0x8503000C);
    octets::put_u16(out, 30, flags);
    octets::put_u16(out, 32, 0);
    octets::put_u32(out, 34, milliseconds);
    octets::put_u32(out, 38, 0);
}

// Writes FT Session in the form of its timeout; of the published form's new flags S alone is set.
fn put_session(out: &mut [u8], ack: Option<FtNumber>, timeout: Timeout)
    requires { session_end timeout ≤ length out.old }
    ensures { out.new ≡ laid out.old 26 (session_tlv ack timeout) }
{
    let flags = reconnect_flag(ack);
    match timeout {
        Timeout::Seconds(s) => put_draft(out, flags, s),
        Timeout::Milliseconds(n) => put_published(out, flags + 0x0008, n),
    }
}

// Writes an Init up to its FT Session TLV.
fn put_init(
    out: &mut [u8],
    size: u16,
    id: MessageId,
    p: OwnParameters,
    ack: Option<FtNumber>,
    timeout: Timeout,
)
    requires { session_end timeout ≤ length out.old }
    ensures { out.new ≡ laid out.old 0 (init_head size id p ack timeout) }
{
    put_head(out, 0x0200, size, id.0);
    put_parameters(out, p);
    put_session(out, ack, timeout);
}

// Writes our Init: with an ACK R is set and FT ACK stands at its end, without one R is clear. It has 34 or 42 bytes with a timeout in seconds,
// 42 or 50 with one in milliseconds. Where the output is too short (9) no byte is written; else it stands at its start, and no byte after it
// changes. Exact room is enough.
pub fn write_init(
    out: &mut [u8],
    id: MessageId,
    p: OwnParameters,
    timeout: Timeout,
    ack: Option<FtNumber>,
) -> Option<usize>
    ensures { (result, out.new) ≡ written_of out.old (init_bytes id p timeout ack) }
{
    let end = session_end(timeout);
    match ack {
        None => {
            if out.len() < end {
                return None;
            }
            put_init(out, (end - 4) as u16, id, p, ack, timeout);
            Some(end)
        }
        Some(a) => {
            if out.len() < end + 8 {
                return None;
            }
            put_init(out, (end + 4) as u16, id, p, ack, timeout);
            put_tlv(out, end, 0x0504, a.0);
            Some(end + 8)
        }
    }
}

// Writes a KeepAlive, with FT ACK where one is given: 8 or 16 bytes, by the same rule for the room.
pub fn write_keepalive(out: &mut [u8], id: MessageId, ack: Option<FtNumber>) -> Option<usize>
    ensures { (result, out.new) ≡ written_of out.old (keepalive_bytes id ack) }
{
    match ack {
        None => {
            if out.len() < 8 {
                return None;
            }
            put_head(out, 0x0201, 4, id.0);
            Some(8)
        }
        Some(a) => {
            if out.len() < 16 {
                return None;
            }
            put_head(out, 0x0201, 12, id.0);
            put_tlv(out, 8, 0x0504, a.0);
            Some(16)
        }
    }
}

// Writes a message with its length raised by the bytes added behind it, and FT Protection there.
fn put_protected(out: &mut [u8], m: &[u8], added: usize, number: u32)
    requires { (8 ≤ length m.now) × ((length m.now ≤ 480) × ((added ≤ 16) × (length m.now + 8 ≤ length out.old))) }
    ensures { out.new ≡ laid out.old 0 (raised_to m.now (length m.now + added - 4) ++ tlv_bytes protection_type (bytes 4 number)) }
{
    octets::copy_to(out, 0, m);
    octets::put_u16(out, 2, (m.len() + added - 4) as u16);
    put_tlv(out, m.len(), 0x0203, number);
}

// Writes a stored message with FT Protection behind it, then FT ACK where one is given, and its length raised, by the same rule for the
// room. Only Send calls it, with a stored message.
pub fn write_protected(
    out: &mut [u8],
    m: &[u8],
    number: FtNumber,
    ack: Option<FtNumber>,
) -> Option<usize>
    requires { (8 ≤ length m.now) × (length m.now ≤ 480) }
    ensures { (result, out.new) ≡ written_of out.old (protected_bytes m.now number ack) }
{
    match ack {
        None => {
            let end = m.len() + 8;
            if out.len() < end {
                return None;
            }
            put_protected(out, m, 8, number.0);
            Some(end)
        }
        Some(a) => {
            let end = m.len() + 16;
            if out.len() < end {
                return None;
            }
            put_protected(out, m, 16, number.0);
            put_tlv(out, m.len() + 8, 0x0504, a.0);
            Some(end)
        }
    }
}
