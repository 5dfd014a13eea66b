// Messages of the peer's: what they make of the list.
ghost use Rattle.std.specs.Prelude.{true, ◌≡◌};
ghost use Rattle.label_events.specs.declared.Touched.TheVariants.{Label};
ghost use Rattle.label_events.specs.Receive.{received_place, moves_by, planned_by, reception_of, every_received, takes_at, every_beside, received_beside};

use crate::changing::{code_at, make_change, plan_place, room_at, taken_at};
use crate::requests::end_request;
use crate::{Change, Meets, Receipt, Reception, Touched};
use label_list::{
    FIRST_LABEL, LABEL_COUNT, LabelMessage, SweepRule, code_received, find_label, received_side,
    sweep, sweep_beside,
};

// The place of the label that a received message names, on the message's own side; none where it names none. Found once, for its
// protection and for its change.
pub fn received_place(words: &[u32], message: LabelMessage, touched: Touched) -> Option<usize>
    ensures { result ≡ received_place words.now message touched }
{
    match touched {
        Touched::Label(label) => find_label(words, received_side(message), label),
        Touched::Every => None,
        Touched::Prefix(_) => None,
        Touched::Nothing => None,
    }
}

// Whether a message moves its label, which has another entry or not.
fn moves_by(message: LabelMessage, another: bool) -> bool
    ensures { result ≡ moves_by message another }
{
    match message {
        LabelMessage::Mapping => another,
        LabelMessage::Withdraw => false,
        LabelMessage::Release => false,
    }
}

fn plan_received(
    words: &[u32],
    place: Option<usize>,
    meets: Meets,
    message: LabelMessage,
    protected: bool,
    label: u32,
) -> Change
    requires { place ≡ received_place words.now message (Label label) }
    ensures { result ≡ planned_by words.now meets message protected label }
{
    if label < FIRST_LABEL {
        return Change::Keep;
    }
    if label >= LABEL_COUNT {
        return Change::Keep;
    }
    let code = code_received(message, protected, code_at(words, place));
    let request = meets.request;
    let spare = meets.spare;
    let room = room_at(words, request, spare);
    plan_place(moves_by(message, meets.another), place, room, label, code)
}

fn reception(change: Change) -> Reception
    ensures { result ≡ reception_of change }
{
    match change {
        Change::Keep => Reception::Taken,
        Change::Put(_, _) => Reception::Taken,
        Change::Move(_, _, _) => Reception::Taken,
        Change::NoRoom => Reception::NoRoom,
    }
}

fn receive_every(words: &mut [u32], message: LabelMessage)
    ensures { words.new ≡ every_received message (λ k. true) words.old }
{
    match message {
        LabelMessage::Mapping => {}
        LabelMessage::Withdraw => sweep(words, SweepRule::WithdrawAll),
        LabelMessage::Release => sweep(words, SweepRule::ReleaseAll),
    }
}

fn receive_beside(words: &mut [u32], entries: &[u64], entry: u64, message: LabelMessage)
    ensures { words.new ≡ every_beside message entry words.old entries.now }
{
    match message {
        LabelMessage::Mapping => {}
        LabelMessage::Withdraw => sweep_beside(words, entries, entry, SweepRule::WithdrawAll),
        LabelMessage::Release => sweep_beside(words, entries, entry, SweepRule::ReleaseAll),
    }
}

// A message that names no label is taken, and no label takes a word.
fn unnamed() -> Receipt
    ensures { (result.reception ≡ Reception.Taken) × (result.taken ≡ None) }
{
    Receipt {
        reception: Reception::Taken,
        taken: None,
    }
}

// Receives the message, whose label was found at that place. A label that needs a word takes that of the Request which the message ends, or the spare
// one; one that has another entry moves there. Where there is no room (21) no Request is ended, and the list stays as it was. The entries are read for
// a prefix alone.
pub fn receive(
    words: &mut [u32],
    entries: &[u64],
    place: Option<usize>,
    meets: Meets,
    message: LabelMessage,
    protected: bool,
    touched: Touched,
) -> Receipt
    requires { place ≡ received_place words.old message touched }
    ensures { (result.reception ≡ (received_beside words.old entries.now meets message protected touched).0) × (result.taken ≡ takes_at words.old meets message protected touched) × (words.new ≡ (received_beside words.old entries.now meets message protected touched).1) }
{
    let request = meets.request;
    match touched {
        Touched::Label(label) => {
            let change = plan_received(words, place, meets, message, protected, label);
            end_request(words, request);
            make_change(words, change);
            Receipt {
                reception: reception(change),
                taken: taken_at(place, change),
            }
        }
        Touched::Every => {
            end_request(words, request);
            receive_every(words, message);
            unnamed()
        }
        Touched::Prefix(entry) => {
            end_request(words, request);
            receive_beside(words, entries, entry, message);
            unnamed()
        }
        Touched::Nothing => {
            end_request(words, request);
            unnamed()
        }
    }
}
