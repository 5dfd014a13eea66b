// A session's phase and a call's outcome as numbers, both ways: the session's record at the C boundary.
#![tactic(auto)]

mod outcome;
mod phases;

pub use outcome::{outcome_numbers, refuse_unknown};
pub use phases::{bit_of, phase_given, session_left, session_of};

// The phase and its value: InitWait's proposed timeout in milliseconds, UpFT's count sent, else 0; and its flags: UpFT's 1 where the connection is resumed, else 0.
#[repr(C)]
#[derive(Clone, Copy)]
pub struct SessionNumbers {
    pub phase: u32,
    pub value: u32,
    pub flags: u32,
}

// An outcome: its answer's number and block, the session afterwards, the bytes written, the slot's block, block 0 and the further blocks to be stored, and how
// many messages were left out.
#[repr(C)]
#[derive(Clone, Copy)]
pub struct OutcomeNumbers {
    pub answer: u32,
    pub block: u32,
    pub session: SessionNumbers,
    pub length: u32,
    pub slot: u32,
    pub block0: u32,
    pub further: u32,
    pub leftout: u32,
}
