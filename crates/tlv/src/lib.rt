// The TLVs of one message: where each listed one stands, or that they are malformed, and what they say.
#![tactic(auto)]

use ft_number::Timeout;

pub mod walk; // walk.rt: the walk over a message's TLVs
pub mod element; // element.rt: the FEC by its bytes
pub mod value; // value.rt: what the TLVs that were found say

// The place of each listed TLV in a message; 0 where it does not stand.
#[derive(Clone, Copy)]
pub struct Found {
    pub fec: usize,
    pub label: usize,
    pub status: usize,
    pub parameters: usize,
    pub session: usize,
    pub protection: usize,
    pub ack: usize,
    pub requestid: usize,
}

// A part of the message's bytes, from start up to end; 0 and 0 where there is none.
#[derive(Clone, Copy)]
pub struct Part {
    pub start: usize,
    pub end: usize,
}

// One IPv4 prefix: its length in bits, and its bits from the highest on, zeros past the length.
#[derive(Clone, Copy)]
pub struct Ipv4Prefix {
    pub length: u8,
    pub bits: u32,
}

// A FEC: the wildcard alone, one IPv4 prefix, or any other.
#[derive(Clone, Copy)]
pub enum Fec {
    Wildcard,
    Prefix(Ipv4Prefix),
    Other,
}

// The Common Session Parameters: the two that are read.
#[derive(Clone, Copy)]
pub struct Parameters {
    pub keepalive: u16,
    pub pdulength: u16,
}

// The FT Session TLV: the R bit and the reconnection timeout, in the unit of the TLV's form.
#[derive(Clone, Copy)]
pub struct Session {
    pub reconnect: bool,
    pub timeout: Timeout,
}
