// Answers 6 and 13: what a message's kind, its label and the entry of its FEC are asked.
ghost use Rattle.std.specs.Prelude.{◌<◌, not, [], ◌≡◌, eqb, get_or, length};
ghost use Rattle.octets.specs.Pick.{both};
ghost use Rattle.label_list.specs.Beside.{entry_at};
ghost use Rattle.label_list.specs.Find.{FoundIn, is_found};
ghost use Rattle.label_events.specs.Accept.{accepted_by, accepted_of, plan_change, plan_of};
ghost use Rattle.label_events.specs.Requests.{aborted_plan, asked_plan};
ghost use Rattle.message.specs.declared.Kind.TheVariants.{Mapping};
ghost use Rattle.message.specs.Storable.{bears};
ghost use Rattle.message.specs.Submission.{entry_in, submission_of};
ghost use Rattle.image.specs.Sizes.{image_size};
ghost use Rattle.image.specs.State.{decode, stored_index};
ghost use Rattle.image.specs.Verdict.{IsSound};
ghost use Rattle.protocol.specs.Accepting.{is_barred};
ghost use Rattle.protocol.specs.Held.{is_held};
ghost use Rattle.calls.specs.State.{state_of};
ghost use Rattle.submit.specs.Mapping.{accepted_for, change_for, entry_for};

use ft_number::MessageId;
use label_events::{Acceptance, Accepted, Change};
use label_list::{LabelMessage, Side};
use message::Kind;

// Whether the i-th message held is of that kind and label.
fn held_bears(image: &[u8], i: usize, kind: u8, label: u32) -> bool
    requires { IsSound image.now × (i < (decode image.now).header.held) }
    ensures { result ≡ bears (submission_of (get_or (decode image.now).queue i [])) kind label }
{
    if image::held_kind(image, i) != kind {
        return false;
    }
    image::held_label(image, i) == label
}

// Whether a message of that kind and label is held.
fn is_held(image: &[u8], kind: u8, label: u32) -> bool
    requires { IsSound image.now }
    ensures { result ≡ is_held kind label (decode image.now).queue }
{
    for i in 0..image::header_of(image).held as usize {
        if held_bears(image, i, kind, label) {
            return true;
        }
    }
    false
}

// Whether a message still held bars one of that kind and label.
#[tactic(auto, unfolding(protocol::specs::Accepting::is_barred))]
pub fn is_barred(image: &[u8], kind: Kind, label: u32) -> bool
    requires { IsSound image.now }
    ensures { result ≡ is_barred (decode image.now).queue kind label }
{
    match kind {
        Kind::Withdraw | Kind::Release => is_held(image, message::kind_number(kind), label),
        _ => false,
    }
}

// The entry of a Mapping's FEC. Of no other kind is it asked, so no other message is read again.
pub fn entry_of(msg: &[u8], kind: Kind) -> u64
    ensures { result ≡ entry_for kind (entry_in msg.now) }
{
    match kind {
        Kind::Mapping => message::entry_in(msg),
        _ => 0,
    }
}

// Whether another entry than that one stands at the place where a label was found.
fn has_other_entry(image: &[u8], place: Option<usize>, entry: u64) -> bool
    requires { (length image.now ≡ image_size) × FoundIn (decode image.now).labels place }
    ensures { result ≡ both (is_found place) (not (eqb (entry_at (stored_index image.now) place) entry)) }
{
    match place {
        Some(i) => image::entry_at(image, i) != entry,
        None => false,
    }
}

// An answer that changes no label word.
fn without_change(acceptance: Acceptance) -> Accepted
    ensures { (result.acceptance ≡ acceptance) × (result.change ≡ Change.Keep) }
{
    Accepted {
        acceptance,
        change: Change::Keep,
    }
}

// Accepts a Mapping for sending, unless its label is given under another entry. What it makes of the label words is
// told, and nothing is stored.
fn accept_mapping(image: &[u8], label: u32, entry: u64) -> Accepted
    requires { length image.now ≡ image_size }
    ensures { (result.acceptance ≡ accepted_for (state_of image.now).table Mapping label entry) × (result.change ≡ change_for (state_of image.now).table Mapping label entry) }
{
    let mut words = [0u32; label_list::WORD_COUNT];
    image::labels_of(image, &mut words);
    let place = label_list::find_label(&words, Side::Given, label);
    if has_other_entry(image, place, entry) {
        return without_change(Acceptance::NotAllowed);
    }
    label_events::accept(&mut words, LabelMessage::Mapping, label)
}

// The same of a Withdraw or a Release.
fn accept_label(image: &[u8], message: LabelMessage, label: u32) -> Accepted
    requires { length image.now ≡ image_size }
    ensures { (result.acceptance ≡ (accepted_of (decode image.now).labels message label).0) × (result.change ≡ plan_change (plan_of (decode image.now).labels message label)) }
{
    let mut words = [0u32; label_list::WORD_COUNT];
    image::labels_of(image, &mut words);
    label_events::accept(&mut words, message, label)
}

// Of a Request. The IDs of block 65 are read for Requests and Aborts alone; those that do not count are not found.
fn accept_request(image: &[u8], id: MessageId) -> Accepted
    requires { length image.now ≡ image_size }
    ensures { (result.acceptance ≡ (accepted_by (decode image.now).labels (asked_plan (decode image.now).labels (decode image.now).ids id)).0) × (result.change ≡ plan_change (asked_plan (decode image.now).labels (decode image.now).ids id)) }
{
    let mut words = [0u32; label_list::WORD_COUNT];
    let mut ids = [0u32; word_block::PLACE_COUNT];
    image::labels_of(image, &mut words);
    image::ids_of(image, &mut ids);
    label_events::ask(&mut words, &mut ids, id)
}

// And of an Abort.
fn accept_abort(image: &[u8], id: MessageId) -> Accepted
    requires { length image.now ≡ image_size }
    ensures { (result.acceptance ≡ (accepted_by (decode image.now).labels (aborted_plan (decode image.now).labels (decode image.now).ids id)).0) × (result.change ≡ plan_change (aborted_plan (decode image.now).labels (decode image.now).ids id)) }
{
    let mut words = [0u32; label_list::WORD_COUNT];
    let mut ids = [0u32; word_block::PLACE_COUNT];
    image::labels_of(image, &mut words);
    image::ids_of(image, &mut ids);
    label_events::abort(&mut words, &ids, id)
}

// Accepts a message of that kind, label and entry for sending.
#[tactic(auto, unfolding(crate::specs::Mapping::accepted_for, crate::specs::Mapping::change_for, protocol::specs::Accepting::accepted_as, crate::specs::Change::accepted_change))]
pub fn accept_as(image: &[u8], kind: Kind, label: u32, entry: u64) -> Accepted
    requires { length image.now ≡ image_size }
    ensures { (result.acceptance ≡ accepted_for (state_of image.now).table kind label entry) × (result.change ≡ change_for (state_of image.now).table kind label entry) }
{
    match kind {
        Kind::Mapping => accept_mapping(image, label, entry),
        Kind::Withdraw => accept_label(image, LabelMessage::Withdraw, label),
        Kind::Release => accept_label(image, LabelMessage::Release, label),
        Kind::Request(id) => accept_request(image, id),
        Kind::Abort(id) => accept_abort(image, id),
        Kind::NoKind => without_change(Acceptance::NotAllowed),
        _ => without_change(Acceptance::Taken),
    }
}
