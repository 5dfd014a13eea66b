// PDUs, messages, FT numbers and timeouts as numbers, as the C boundary shows them.
#![tactic(auto)]

mod fields;
mod messages;
mod numbers;

pub use messages::{message_read, pdu_message, pdu_open};
pub use numbers::{distance, lesser_timeout, next_number, successor};

// A whole PDU: 0 or 4, and how many messages.
#[repr(C)]
#[derive(Clone, Copy)]
pub struct PduNumbers {
    pub answer: u32,
    pub count: u32,
}

// Where a message lies, in its PDU or in the image that holds it: 0, or the answer and no place.
#[repr(C)]
#[derive(Clone, Copy)]
pub struct PartNumbers {
    pub answer: u32,
    pub start: u32,
    pub end: u32,
}

// A message that was read: 0, or 22 and all else 0.
#[repr(C)]
#[derive(Clone, Copy)]
pub struct MessageNumbers {
    pub answer: u32,
    pub typenumber: u32,
    pub id: u32,
    pub kind: u32,
    pub has: u32,
    pub fecstart: u32,
    pub fecend: u32,
    pub label: u32,
    pub status: u32,
    pub number: u32,
    pub ack: u32,
    pub reconnect: u32,
    pub timeout: u32,
    pub keepalive: u32,
    pub maxpdu: u32,
    pub requestid: u32,
    pub statusid: u32,
    pub published: u32,
}

// The next number: 0 and how many were left out before it, or 20 or 30 and none.
#[repr(C)]
#[derive(Clone, Copy)]
pub struct NextNumbers {
    pub answer: u32,
    pub leftout: u32,
}

// A signed distance: 0, or 2 and no steps.
#[repr(C)]
#[derive(Clone, Copy)]
pub struct DistanceNumbers {
    pub answer: u32,
    pub steps: i32,
}
