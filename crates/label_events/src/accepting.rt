// Messages of ours: accepted for sending, and released by an ACK.
ghost use Rattle.std.specs.Prelude.{◌≡◌};
ghost use Rattle.label_events.specs.Accept.{plan_of, plan_change, acceptance_of, accepted_of};
ghost use Rattle.label_events.specs.Ack.{acked_of};

use crate::changing::{code_at, make_change, plan_change};
use crate::{Acceptance, Accepted, Change};
use label_list::{
    FIRST_LABEL, LABEL_COUNT, LabelMessage, code_accepted, code_acked, find_label, sent_side,
    word_of,
};

fn plan_accept(words: &[u32], message: LabelMessage, label: u32) -> Option<Change>
    ensures { result ≡ plan_of words.now message label }
{
    if label < FIRST_LABEL {
        return None;
    }
    if label >= LABEL_COUNT {
        return None;
    }
    let place = find_label(words, sent_side(message), label);
    match code_accepted(message, code_at(words, place)) {
        Some(code) => Some(plan_change(words, place, label, code)),
        None => None,
    }
}

fn acceptance(change: Change) -> Acceptance
    ensures { result ≡ acceptance_of change }
{
    match change {
        Change::Keep => Acceptance::Taken,
        Change::Put(_, _) => Acceptance::Taken,
        Change::Move(_, _, _) => Acceptance::Taken,
        Change::NoRoom => Acceptance::NoRoom,
    }
}

// Accepts the message for sending; a refusal, NotAllowed (6) or NoRoom (13), leaves the list as it was. The change says which word is another now.
pub fn accept(words: &mut [u32], message: LabelMessage, label: u32) -> Accepted
    ensures { (result.acceptance ≡ (accepted_of words.old message label).0) × (result.change ≡ plan_change (plan_of words.old message label)) × (words.new ≡ (accepted_of words.old message label).1) }
{
    match plan_accept(words, message, label) {
        Some(change) => {
            make_change(words, change);
            Accepted {
                acceptance: acceptance(change),
                change: change,
            }
        }
        None => Accepted {
            acceptance: Acceptance::NotAllowed,
            change: Change::Keep,
        },
    }
}

// The list after an ACK has released a message of that kind and label.
pub fn release_by_ack(words: &mut [u32], message: LabelMessage, label: u32)
    ensures { words.new ≡ acked_of words.old message label }
{
    match find_label(words, sent_side(message), label) {
        Some(i) => {
            words[i] = word_of(label, code_acked(message, words[i] / LABEL_COUNT));
        }
        None => {}
    }
}
