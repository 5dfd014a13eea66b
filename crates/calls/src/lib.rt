// What every public call shares: phases, answers and what they leave, the outcome, and the acts that end a connection or a session.
#![tactic(auto)]

mod acking;
mod admitting;
mod answers;
mod ending;
mod further;
mod marks;
mod phases;
mod receiving;
mod storing;

pub use acking::{frees_none, release_labels, released_header};
pub use admitting::{admit, check, refuse};
pub use answers::{answer_number, effect_of, is_done};
pub use ending::{fail, release, settle};
pub use further::{store_entry, store_id, store_taken};
pub use marks::{marks_accepted, marks_heard, requests_stopped};
pub use phases::{issued_count, phase_fits, resting_phase};
pub use protocol::{Answer, Effect, Phase, Progress, Waiting};
pub use receiving::is_init;
pub use storing::{store_changed, store_numbers};

// What a call answers. `slot` is the block of the slot that was written, to be stored first, and 0 where none was; `further` has a bit for each further
// block whose bytes changed, bit 0 for block 65, bits 1 and 2 for 66 and 67, to be stored next; `block0` says whether block 0's bytes changed, to be stored last and before output
// leaves. `leftout` says how many messages were left out: by the peer before the one received, or by us before the one sent.
#[derive(Clone, Copy)]
pub struct Outcome {
    pub answer: Answer,
    pub phase: Phase,
    pub written: usize,
    pub slot: usize,
    pub block0: bool,
    pub further: u32,
    pub leftout: u32,
}
