// The walk over the TLVs of a message, left at the first fault.
ghost use Rattle.std.specs.Prelude.{◌+◌, ◌-◌, ◌≤◌, true, ◌≡◌, length, drop};
ghost use Rattle.tlv.specs.Tlv.{tlv_of, length_fits, label_value};
ghost use Rattle.tlv.specs.Walk.{place_of, placed_of, noted_of, turn_of, walk_of, none_found, tlvs_of};

use crate::Found;

// The listed TLVs, and any other.
#[derive(Clone, Copy)]
pub enum Tlv {
    Fec,
    Label,
    Status,
    Parameters,
    Session,
    Protection,
    Ack,
    RequestId,
    Other,
}

// What stands at a place: no byte more, a fault, or a TLV: the places with its own, and its size.
#[derive(Clone, Copy)]
pub enum Turn {
    End,
    Malformed,
    Next(Found, usize),
}

fn length_fits(tlv: Tlv, n: usize) -> bool
    ensures { result ≡ length_fits tlv n }
{
    match tlv {
        Tlv::Fec => true,
        Tlv::Label => n == 4,
        Tlv::Status => n == 10,
        Tlv::Parameters => n == 14,
        Tlv::Session => n == 4 || n == 12,
        Tlv::Protection => n == 4,
        Tlv::Ack => n == 4,
        Tlv::RequestId => n == 4,
        Tlv::Other => true,
    }
}

fn place_of(found: Found, tlv: Tlv) -> usize
    ensures { result ≡ place_of found tlv }
{
    match tlv {
        Tlv::Fec => found.fec,
        Tlv::Label => found.label,
        Tlv::Status => found.status,
        Tlv::Parameters => found.parameters,
        Tlv::Session => found.session,
        Tlv::Protection => found.protection,
        Tlv::Ack => found.ack,
        Tlv::RequestId => found.requestid,
        Tlv::Other => 0,
    }
}

fn placed(found: Found, tlv: Tlv, at: usize) -> Found
    ensures { result ≡ placed_of found tlv at }
{
    let mut g = found;
    match tlv {
        Tlv::Fec => g.fec = at,
        Tlv::Label => g.label = at,
        Tlv::Status => g.status = at,
        Tlv::Parameters => g.parameters = at,
        Tlv::Session => g.session = at,
        Tlv::Protection => g.protection = at,
        Tlv::Ack => g.ack = at,
        Tlv::RequestId => g.requestid = at,
        Tlv::Other => {}
    }
    g
}

// The label in the TLV at a place; 0 in another TLV than Generic Label.
fn label_in(s: &[u8], tlv: Tlv, n: usize, at: usize) -> u32
    requires { (4 + n ≤ length s.now - at) × (length_fits tlv n ≡ true) }
    ensures { result ≡ label_value tlv (drop at s.now) }
{
    match tlv {
        Tlv::Label => octets::get_u32(s, at + 4),
        Tlv::Fec => 0,
        Tlv::Status => 0,
        Tlv::Parameters => 0,
        Tlv::Session => 0,
        Tlv::Protection => 0,
        Tlv::Ack => 0,
        Tlv::RequestId => 0,
        Tlv::Other => 0,
    }
}

// What the TLV at a place, with a value of n bytes, makes of the places found before it.
fn noted(found: Found, s: &[u8], tlv: Tlv, n: usize, at: usize) -> Option<Found>
    requires { 4 + n ≤ length s.now - at }
    ensures { result ≡ noted_of found tlv n at (drop at s.now) }
{
    if !length_fits(tlv, n) {
        return None;
    }
    if place_of(found, tlv) != 0 {
        return None;
    }
    if 1048575 < label_in(s, tlv, n, at) {
        return None;
    }
    Some(placed(found, tlv, at))
}

// The same by the TLV's type number, U and F masked off: looked at once, so that each TLV's tests and place are its own code.
fn noted_by(found: Found, s: &[u8], number: u16, n: usize, at: usize) -> Option<Found>
    requires { 4 + n ≤ length s.now - at }
    ensures { result ≡ noted_of found (tlv_of number) n at (drop at s.now) }
{
    match number {
        0x0100 => noted(found, s, Tlv::Fec, n, at),
        0x0200 => noted(found, s, Tlv::Label, n, at),
        0x0300 => noted(found, s, Tlv::Status, n, at),
        0x0500 => noted(found, s, Tlv::Parameters, n, at),
        0x0503 => noted(found, s, Tlv::Session, n, at),
        0x0203 => noted(found, s, Tlv::Protection, n, at),
        0x0504 => noted(found, s, Tlv::Ack, n, at),
        0x0600 => noted(found, s, Tlv::RequestId, n, at),
        _ => noted(found, s, Tlv::Other, n, at),
    }
}

fn turn_at(found: Found, s: &[u8], at: usize) -> Turn
    requires { at ≤ length s.now }
    ensures { result ≡ turn_of found at (drop at s.now) }
{
    let left = s.len() - at;
    if left == 0 {
        return Turn::End;
    }
    if left < 4 {
        return Turn::Malformed;
    }
    let number = octets::get_u16(s, at) % 16384;
    let n = octets::get_u16(s, at + 2) as usize;
    if left < 4 + n {
        return Turn::Malformed;
    }
    match noted_by(found, s, number, n, at) {
        None => Turn::Malformed,
        Some(f) => Turn::Next(f, 4 + n),
    }
}

fn walk_tlvs(s: &[u8]) -> Option<Found>
    requires { 8 ≤ length s.now }
    ensures { result ≡ walk_of 8 (drop 8 s.now) none_found }
{
    let mut found = Found {
        fec: 0,
        label: 0,
        status: 0,
        parameters: 0,
        session: 0,
        protection: 0,
        ack: 0,
        requestid: 0,
    };
    let mut at: usize = 8;
    let answer = 'walk: loop {
        match turn_at(found, s, at) {
            Turn::End => {
                break 'walk Some(found);
            }
            Turn::Malformed => {
                break 'walk None;
            }
            Turn::Next(f, n) => {
                found = f;
                at = at + n;
            }
        }
    };
    answer
}

fn walk_whole(m: &[u8]) -> Option<Found>
    ensures { result ≡ tlvs_of m.now }
{
    if m.len() < 8 {
        return None;
    }
    if octets::get_u16(m, 2) as usize + 4 != m.len() {
        return None;
    }
    walk_tlvs(m)
}

// Where each listed TLV of a message stands, in every message type, or that it is malformed: a head cut off or whose length is not that of
// what follows, a TLV cut off, a listed one with a wrong length or a second time, a label above 1,048,575. U and F of a TLV are ignored,
// others than those listed skipped. The bytes are lent on from their start: then the compiler hands address and length over in registers,
// and no caller copies the pair through memory.
pub fn walk_message(m: &[u8]) -> Option<Found>
    ensures { result ≡ tlvs_of m.now }
{
    walk_whole(&m[0..])
}
