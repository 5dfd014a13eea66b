// The label list: label words, what each event makes of a label's code, validity, and the rules that act on every word.
//
// A word is label + 1,048,576 x code, and 0 is a free word. Codes: 1 given, 2 withdrawing, 3 using, 4 asked back, 5 releasing, 6 using without protection, 7 an open
// Request, whose message ID stands at the same place of a list beside the words, 8 withdrawn and the ACK has come, 9 withdrawn and the Release has come.
#![tactic(auto)]

mod beside;
mod requests;
mod rules;
mod search;
mod sweeping;
mod validity;
mod word;

pub use beside::{any_guarded, sweep_beside};
pub use requests::{find_request, ids_stand_once};
pub use rules::{
    code_accepted, code_acked, code_protection, code_received, received_side, sent_side,
};
pub use search::{count_listed, find, find_label};
pub use sweeping::sweep;
pub use validity::valid;
pub use word::{FIRST_LABEL, LABEL_COUNT, REQUEST_WORD, WORD_COUNT, lists_label, word_of};

// The two sides on which a label can stand: given to the peer, codes 1, 2, 8 and 9; used by us, codes 3 to 6.
#[derive(Clone, Copy)]
pub enum Side {
    Given,
    Used,
}

// The messages that change the list.
#[derive(Clone, Copy)]
pub enum LabelMessage {
    Mapping,
    Withdraw,
    Release,
}

// A rule for many words: a Withdraw or a Release that names no label, or the end of a connection.
#[derive(Clone, Copy)]
pub enum SweepRule {
    WithdrawAll,
    ReleaseAll,
    AfterBreak,
}

// What is looked for in the words beside a label: a free word, or a word on a side that no message may touch without protection.
#[derive(Clone, Copy)]
pub enum Wanted {
    Free,
    ProtectedOn(Side),
}

// The verdict on a message's protection: 0, 33, 32.
#[derive(Clone, Copy)]
pub enum Protection {
    Right,
    Missing,
    Wrong,
}
