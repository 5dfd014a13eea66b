// What messages make of the label list: ours, accepted for sending and released by an ACK, and the peer's, received.
//
// Each is planned on the lent words first, and then written: an answer that refuses leaves them as they were.
#![tactic(auto)]

mod accepting;
mod changing;
mod protecting;
mod receiving;
mod requests;

pub use accepting::{accept, release_by_ack};
pub use changing::taken_at;
pub use protecting::judge_protection;
pub use receiving::{receive, received_place};
pub use requests::{abort, ask, end_request};

// What an event makes of the list: nothing, one word written at an index, a label moved from an index to another, or a word is needed and none is
// free.
#[derive(Clone, Copy)]
pub enum Change {
    Keep,
    Put(usize, u32),
    Move(usize, usize, u32),
    NoRoom,
}

// The answer to a message of ours: 0, 6, 13.
#[derive(Clone, Copy)]
pub enum Acceptance {
    Taken,
    NotAllowed,
    NoRoom,
}

// A message of ours as it was answered, with the change that it made of the list: none where it was refused.
#[derive(Clone, Copy)]
pub struct Accepted {
    pub acceptance: Acceptance,
    pub change: Change,
}

// The answer to a message of the peer's: 0, 21.
#[derive(Clone, Copy)]
pub enum Reception {
    Taken,
    NoRoom,
}

// A message of the peer's as it was answered, with the place at which its label took a word: nowhere where it took none.
#[derive(Clone, Copy)]
pub struct Receipt {
    pub reception: Reception,
    pub taken: Option<usize>,
}

// What a message of the peer's meets beside the words: the place of the Request that it ends, the place of a word that is free for it, and whether
// its FEC has another entry than its label.
#[derive(Clone, Copy)]
pub struct Meets {
    pub request: Option<usize>,
    pub spare: Option<usize>,
    pub another: bool,
}

// The labels that a received message touches: the one it names, every one under the wildcard FEC, those of one entry under a prefix, none under
// another FEC.
#[derive(Clone, Copy)]
pub enum Touched {
    Label(u32),
    Every,
    Prefix(u64),
    Nothing,
}
