// The word for a label that needs one: only a Mapping's does, if it has none or moves.
ghost use Rattle.std.specs.Prelude.{◌<◌, not, ◌≡◌, eqb, length, get_or};
ghost use Rattle.label_list.specs.Beside.{entry_at};
ghost use Rattle.label_list.specs.Find.{FoundIn, overlaid, spare_in};
ghost use Rattle.label_list.specs.Word.{word_count, is_free, listable};
ghost use Rattle.tlv.specs.Element.{entry_by};
ghost use Rattle.image.specs.Sizes.{image_size};
ghost use Rattle.image.specs.State.{decode, stored_index};
ghost use Rattle.receive.specs.Words.{takes_anew, mapping_needs, message_needs, needs_word, spare_beside, spare_for};

use label_events::Touched;
use label_list::{FIRST_LABEL, LABEL_COUNT, LabelMessage};
use message::Fec;

// Whether the FEC has another entry than the label at that place.
pub fn brings_another(image: &[u8], place: Option<usize>, fec: Option<Fec>) -> bool
    requires { (length image.now ≡ image_size) × FoundIn (decode image.now).labels place }
    ensures { result ≡ not (eqb (entry_at (stored_index image.now) place) (entry_by fec)) }
{
    let entry = tlv::element::entry_by(fec);
    match place {
        Some(i) => image::entry_at(image, i) != entry,
        None => entry != 0,
    }
}

// Whether the word at that place is free, and in block 0 too: what the ACK frees is in use until block 0 is stored.
fn is_spare(image: &[u8], words: &[u32], i: usize) -> bool
    requires { (length image.now ≡ image_size) × (length words.now ≡ word_count) × (i < word_count) }
    ensures { result ≡ is_free (get_or (overlaid words.now (decode image.now).labels) i 0) }
{
    if words[i] != 0 {
        return false;
    }
    image::label_at(image, i) == 0
}

// The first such word.
fn find_spare(image: &[u8], words: &[u32]) -> Option<usize>
    requires { (length image.now ≡ image_size) × (length words.now ≡ word_count) }
    ensures { result ≡ spare_in (decode image.now).labels words.now }
{
    for i in 0..words.len() {
        if is_spare(image, words, i) {
            return Some(i);
        }
    }
    None
}

// A spare word, where there is no Request's.
fn spare_beside(image: &[u8], words: &[u32], request: Option<usize>) -> Option<usize>
    requires { (length image.now ≡ image_size) × (length words.now ≡ word_count) }
    ensures { result ≡ spare_beside (decode image.now).labels words.now request }
{
    match request {
        Some(_) => None,
        None => find_spare(image, words),
    }
}

fn takes_anew(place: Option<usize>, another: bool) -> bool
    ensures { result ≡ takes_anew place another }
{
    match place {
        Some(_) => another,
        None => true,
    }
}

// Labels 0 to 15, and what is no label, are never listed.
fn is_listable(label: u32) -> bool
    ensures { result ≡ listable label }
{
    if label < FIRST_LABEL {
        return false;
    }
    if label >= LABEL_COUNT {
        return false;
    }
    true
}

fn mapping_needs(touched: Touched, place: Option<usize>, another: bool) -> bool
    ensures { result ≡ mapping_needs touched place another }
{
    match touched {
        Touched::Label(label) => {
            if !is_listable(label) {
                return false;
            }
            takes_anew(place, another)
        }
        Touched::Every => false,
        Touched::Prefix(_) => false,
        Touched::Nothing => false,
    }
}

fn message_needs(
    message: LabelMessage,
    touched: Touched,
    place: Option<usize>,
    another: bool,
) -> bool
    ensures { result ≡ message_needs message touched place another }
{
    match message {
        LabelMessage::Mapping => mapping_needs(touched, place, another),
        LabelMessage::Withdraw => false,
        LabelMessage::Release => false,
    }
}

fn needs_word(effect: Option<(LabelMessage, Touched)>, place: Option<usize>, another: bool) -> bool
    ensures { result ≡ needs_word effect place another }
{
    match effect {
        None => false,
        Some((m, t)) => message_needs(m, t, place, another),
    }
}

// The spare word for a message whose label was found at that place and which answers that Request: searched only where the label needs one.
pub fn spare_for(
    image: &[u8],
    words: &[u32],
    place: Option<usize>,
    request: Option<usize>,
    another: bool,
    effect: Option<(LabelMessage, Touched)>,
) -> Option<usize>
    requires { (length image.now ≡ image_size) × (length words.now ≡ word_count) }
    ensures { result ≡ spare_for (decode image.now).labels words.now place request another effect }
{
    if !needs_word(effect, place, another) {
        return None;
    }
    spare_beside(image, words, request)
}
