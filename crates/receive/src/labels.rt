// What a received message does to the label words, and whether it is protected as they demand.
ghost use Rattle.std.specs.Prelude.{◌≤◌, not, ◌≡◌};
ghost use Rattle.octets.specs.Pick.{both};
ghost use Rattle.image.specs.State.{decode};
ghost use Rattle.image.specs.Verdict.{IsSound};
ghost use Rattle.protocol.specs.Labels.{touched_by, effect_on, label_effect, effect_place, always_protected};
ghost use Rattle.calls.specs.State.{state_of};
ghost use Rattle.receive.specs.Speed.{leaves_words, labels_stay};
ghost use Rattle.receive.specs.Words.{names_prefix, asks_entries, protection_lent, protection_judged, received_lent, takes_lent};

use crate::answering::answered_id;
use crate::reading::is_protected;
use label_events::{Meets, Receipt, Reception, Touched};
use label_list::{LabelMessage, Protection};
use message::{Fec, Kind, Message, MessageType};

// The labels that a message touches.
fn touched_by(label: Option<u32>, fec: Option<Fec>) -> Touched
    ensures { result ≡ touched_by label fec }
{
    match label {
        Some(l) => Touched::Label(l),
        None => match fec {
            None => Touched::Nothing,
            Some(Fec::Wildcard) => Touched::Every,
            Some(Fec::Prefix(_)) => Touched::Prefix(tlv::element::entry_by(fec)),
            Some(Fec::Other) => Touched::Nothing,
        },
    }
}

fn names_prefix(touched: Touched) -> bool
    ensures { result ≡ names_prefix touched }
{
    match touched {
        Touched::Label(_) => false,
        Touched::Every => false,
        Touched::Prefix(_) => true,
        Touched::Nothing => false,
    }
}

fn effect_on(t: MessageType, touched: Touched) -> Option<(LabelMessage, Touched)>
    ensures { result ≡ effect_on t touched }
{
    match t {
        MessageType::Notification => None,
        MessageType::Initialization => None,
        MessageType::KeepAlive => None,
        MessageType::Address => None,
        MessageType::AddressWithdraw => None,
        MessageType::Mapping => Some((LabelMessage::Mapping, touched)),
        MessageType::Request => None,
        MessageType::Withdraw => Some((LabelMessage::Withdraw, touched)),
        MessageType::Release => Some((LabelMessage::Release, touched)),
        MessageType::Abort => None,
        MessageType::Other => None,
    }
}

// What a message does to the labels.
pub fn label_effect(g: Message) -> Option<(LabelMessage, Touched)>
    ensures { result ≡ label_effect g }
{
    let t = g.typename;
    let label = g.label;
    let fec = g.fec;
    effect_on(t, touched_by(label, fec))
}

// The place of the label that a message names: found once, for its protection and for its change.
pub fn effect_place(words: &[u32], effect: Option<(LabelMessage, Touched)>) -> Option<usize>
    ensures { result ≡ effect_place words.now effect }
{
    match effect {
        None => None,
        Some((m, t)) => label_events::received_place(words, m, t),
    }
}

// Whether a message touches no label and answers no Request.
fn leaves_words(g: Message) -> bool
    ensures { result ≡ leaves_words g }
{
    match label_effect(g) {
        None => match answered_id(g) {
            None => true,
            Some(_) => false,
        },
        Some((_, _)) => false,
    }
}

// Whether an ACK that releases so many messages, and then the message, leave every label word as it is: told without a look at the words.
pub fn labels_stay(image: &[u8], count: u32, g: Message) -> bool
    requires { IsSound image.now × (count ≤ (decode image.now).header.held) }
    ensures { result ≡ labels_stay (state_of image.now) count g }
{
    if !leaves_words(g) {
        return false;
    }
    calls::frees_none(image, count as usize)
}

// Whether a kind is protected whatever the labels are.
fn always_protected(kind: Kind) -> bool
    ensures { result ≡ always_protected kind }
{
    match kind {
        Kind::Mapping => false,
        Kind::Withdraw => false,
        Kind::Release => false,
        Kind::Address => true,
        Kind::AddressWithdraw => true,
        Kind::ResourcesAvailable => true,
        Kind::Request(_) => false,
        Kind::Abort(_) => false,
        Kind::NoResources => false,
        Kind::NoKind => false,
    }
}

// Whether a message of such a kind comes without protection.
fn lacks_protection(protected: bool, kind: Kind) -> bool
    ensures { result ≡ both (not protected) (always_protected kind) }
{
    if protected {
        return false;
    }
    always_protected(kind)
}

// Whether only the entries tell which labels a message touches.
pub fn asks_entries(effect: Option<(LabelMessage, Touched)>) -> bool
    ensures { result ≡ asks_entries effect }
{
    match effect {
        None => false,
        Some((_, t)) => names_prefix(t),
    }
}

fn judge_effect(
    words: &[u32],
    entries: &[u64],
    place: Option<usize>,
    protected: bool,
    effect: Option<(LabelMessage, Touched)>,
) -> Protection
    requires { place ≡ effect_place words.now effect }
    ensures { result ≡ protection_lent words.now entries.now protected effect }
{
    match effect {
        None => Protection::Right,
        Some((m, t)) => label_events::judge_protection(words, entries, place, m, protected, t),
    }
}

// Whether a message, whose label was found at that place, is protected as it must be; the entries are read for a prefix alone.
pub fn judge_protection(
    words: &[u32],
    entries: &[u64],
    place: Option<usize>,
    effect: Option<(LabelMessage, Touched)>,
    g: Message,
) -> Protection
    requires { place ≡ effect_place words.now effect }
    ensures { result ≡ protection_judged words.now entries.now effect g }
{
    let number = g.protection;
    let protected = is_protected(number);
    if lacks_protection(protected, message::kind_of(g)) {
        return Protection::Missing;
    }
    judge_effect(words, entries, place, protected, effect)
}

// Changes the label words as the message does, whose label was found at that place: whether there was a word for what it lists, and which its label took.
pub fn change_labels(
    words: &mut [u32],
    entries: &[u64],
    place: Option<usize>,
    meets: Meets,
    protected: bool,
    effect: Option<(LabelMessage, Touched)>,
) -> Receipt
    requires { place ≡ effect_place words.old effect }
    ensures { (result.reception ≡ (received_lent words.old entries.now meets protected effect).0) × (result.taken ≡ takes_lent words.old meets protected effect) × (words.new ≡ (received_lent words.old entries.now meets protected effect).1) }
{
    let request = meets.request;
    match effect {
        None => {
            label_events::end_request(words, request);
            Receipt {
                reception: Reception::Taken,
                taken: None,
            }
        }
        Some((m, t)) => label_events::receive(words, entries, place, meets, m, protected, t),
    }
}
