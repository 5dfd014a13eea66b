// The stores of Submit: the message's slot, a Request's ID or the entry of a Mapping that takes a word, then block 0.
ghost use Rattle.std.specs.Prelude.{◌<◌, [], ◌≡◌, length};
ghost use Rattle.label_list.specs.Find.{FoundIn};
ghost use Rattle.block0.specs.Layout.{slot_count};
ghost use Rattle.label_events.specs.Change.{ChangeIn, changed};
ghost use Rattle.image.specs.Sizes.{image_size};
ghost use Rattle.image.specs.State.{decode, store0};
ghost use Rattle.calls.specs.Further.{further_told};
ghost use Rattle.calls.specs.Outcomes.{after_with};
ghost use Rattle.calls.specs.Storing.{entry_put, further_stored, next_slot};
ghost use Rattle.submit.specs.Call.{queued};
ghost use Rattle.submit.specs.Change.{header_queued, id_put};
ghost use Rattle.submit.specs.Mapping.{MovesNone, further_by, change_takes};
ghost use Rattle.submit.specs.Queueing.{Queueable};

use block0::Header;
use calls::{Answer, Outcome, Phase};
use ft_number::MessageId;
use label_events::Change;
use message::Kind;

// The slot after that of the newest held.
fn next_slot(h: Header) -> usize
    ensures { (result ≡ next_slot h) × (result < slot_count) }
{
    (h.first as usize + h.held as usize) % image::SLOT_COUNT
}

// The header with one more message held, of that kind.
fn queued_header(h: Header, kind: Kind) -> Header
    requires { h.held < slot_count }
    ensures { result ≡ header_queued h kind }
{
    let mut next = h;
    next.held = h.held + 1;
    next.marks = calls::marks_accepted(h.marks, kind);
    next
}

// Stores a Request's ID at the place of its word, if its change writes one.
fn store_request(image: &mut [u8], id: MessageId, change: Change) -> u32
    requires { (length image.old ≡ image_size) × ChangeIn (decode image.old).labels change }
    ensures { (image.new ≡ further_stored image.old (id_put change id)) × (result ≡ further_told image.old (id_put change id)) }
{
    match change {
        Change::Put(place, _) => calls::store_id(image, place, id),
        _ => 0,
    }
}

// The place of the word that a change takes: a word that is written in place was not free.
fn taken_by(image: &[u8], change: Change) -> Option<usize>
    requires { (length image.now ≡ image_size) × ChangeIn (decode image.now).labels change }
    ensures { (result ≡ change_takes (decode image.now).labels change) × FoundIn (decode image.now).labels result }
{
    match change {
        Change::Keep => None,
        Change::Put(place, _) => {
            if image::label_at(image, place) != 0 {
                return None;
            }
            Some(place)
        }
        Change::Move(_, to, _) => Some(to),
        Change::NoRoom => None,
    }
}

// Stores the entry of a Mapping at the word that it takes, if it takes one.
fn store_mapping(image: &mut [u8], entry: u64, change: Change) -> u32
    requires { (length image.old ≡ image_size) × ChangeIn (decode image.old).labels change }
    ensures { (image.new ≡ further_stored image.old (entry_put (change_takes (decode image.old).labels change) entry)) × (result ≡ further_told image.old (entry_put (change_takes (decode image.old).labels change) entry)) }
{
    let place = taken_by(image, change);
    calls::store_taken(image, place, entry)
}

// Stores what a message of that kind makes of the further blocks; the bit in `further` of the one that is another.
#[tactic(auto, unfolding(crate::specs::Mapping::further_by))]
fn store_further(image: &mut [u8], kind: Kind, entry: u64, change: Change) -> u32
    requires { (length image.old ≡ image_size) × ChangeIn (decode image.old).labels change }
    ensures { (image.new ≡ further_stored image.old (further_by (decode image.old).labels kind change entry)) × (result ≡ further_told image.old (further_by (decode image.old).labels kind change entry)) }
{
    match kind {
        Kind::Mapping => store_mapping(image, entry, change),
        Kind::Request(id) => store_request(image, id, change),
        _ => 0,
    }
}

// Stores block 0 with that header and that change of its label words: only the word that is another is written.
#[tactic(auto, unfolding(label_events::specs::Change::changed))]
fn store_change(image: &mut [u8], h: Header, change: Change)
    requires { (length image.old ≡ image_size) × ChangeIn (decode image.old).labels change × MovesNone change }
    ensures { image.new ≡ store0 image.old h (changed (decode image.old).labels change) }
{
    match change {
        Change::Keep => image::store_header(image, h),
        Change::Put(place, word) => image::store_label(image, h, place, word),
        // Ruled out: a message of ours moves no label.
        Change::Move(_, _, _) => {}
        Change::NoRoom => image::store_header(image, h),
    }
}

// Stores the message as the newest held, with the change that it makes of the label words.
pub fn queue_message(
    image: &mut [u8],
    phase: Phase,
    msg: &[u8],
    kind: Kind,
    label: u32,
    entry: u64,
    change: Change,
) -> Outcome
    requires { Queueable image.old msg.now kind label entry change }
    ensures { after_with result image.new [] ≡ queued image.old phase msg.now }
{
    let h = image::header_of(image);
    let k = next_slot(h);
    image::store_slot(image, k, msg, kind, label);
    let further = store_further(image, kind, entry, change);
    store_change(image, queued_header(h, kind), change);
    // The count of held messages is another, so block 0 changed.
    Outcome {
        answer: Answer::Done,
        phase,
        written: 0,
        slot: k + 1,
        block0: true,
        further,
        leftout: 0,
    }
}
