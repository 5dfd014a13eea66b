// The answer to a message that was read, in 01's order.
ghost use Rattle.std.specs.Prelude.{◌≤◌, Err, true, false, ◌≡◌, length, take};
ghost use Rattle.label_list.specs.Valid.{valid_of};
ghost use Rattle.label_list.specs.Word.{word_count};
ghost use Rattle.image.specs.Sizes.{image_size};
ghost use Rattle.image.specs.State.{decode, stored_index};
ghost use Rattle.image.specs.Verdict.{IsSound};
ghost use Rattle.protocol.specs.Acked.{released_labels};
ghost use Rattle.protocol.specs.Labels.{label_effect, effect_place};
ghost use Rattle.protocol.specs.Receive.{plain_rule, turn_rule, labels_rule, ack_on, ack_rule, ft_rule};
ghost use Rattle.calls.specs.State.{state_of};
ghost use Rattle.receive.specs.Call.{effect_rule, Serves, Changed, Told};
ghost use Rattle.receive.specs.Speed.{touches_none, labels_stay};
ghost use Rattle.receive.specs.Words.{table_on, asks_entries};

use crate::answering::answered_place;
use crate::labels::{
    asks_entries, change_labels, effect_place, judge_protection, label_effect, labels_stay,
};
use crate::reading::{ack_borne, is_fatal, is_protected, is_zero, turn_borne};
use crate::room::{brings_another, spare_for};
use block0::Header;
use calls::Answer;
use ft_number::TurnError;
use label_events::{Meets, Reception, Touched};
use label_list::{LabelMessage, Protection};
use message::Message;

// 22, 36, 31: a message in UpPlain.
pub fn judge_plain(g: Message) -> Answer
    ensures { result ≡ plain_rule g }
{
    let t = g.typename;
    if calls::is_init(t) {
        return Answer::MalformedReceived;
    }
    let status = g.status;
    if is_fatal(status) {
        return Answer::StatusFatal;
    }
    let found = g.found;
    if message::bears_ft(found) {
        return Answer::FtTlvInPlain;
    }
    Answer::Done
}

// The answer to a message, and where its label takes a word if it is Done.
#[derive(Clone, Copy)]
pub struct Judged {
    pub answer: Answer,
    pub taken: Option<usize>,
}

fn refused(answer: Answer) -> Judged
    ensures { result.answer ≡ answer }
{
    Judged {
        answer: answer,
        taken: None,
    }
}

// What a message of that effect meets, whose label was found at that place.
fn met_by(
    image: &[u8],
    words: &[u32],
    place: Option<usize>,
    effect: Option<(LabelMessage, Touched)>,
    g: Message,
) -> Meets
    requires { (length image.now ≡ image_size) × (length words.now ≡ word_count) × (effect ≡ label_effect g) × (place ≡ effect_place words.now effect) }
    ensures { Serves (decode image.now).labels (table_on image.now words.now) g result }
{
    let fec = g.fec;
    let another = brings_another(image, place, fec);
    let request = answered_place(image, words, g);
    Meets {
        request: request,
        spare: spare_for(image, words, place, request, another, effect),
        another: another,
    }
}

// 21, after all the others: the message changes the label words.
fn judge_room(
    image: &[u8],
    words: &mut [u32],
    entries: &[u64],
    place: Option<usize>,
    effect: Option<(LabelMessage, Touched)>,
    g: Message,
) -> Judged
    requires { (length image.now ≡ image_size) × (length words.old ≡ word_count) × (effect ≡ label_effect g) × (place ≡ effect_place words.old effect) × (touches_none (label_effect g) ≡ false → valid_of words.old ≡ true) × (asks_entries (label_effect g) ≡ true → entries.now ≡ stored_index image.now) }
    ensures { (result.answer ≡ effect_rule (decode image.now).labels (table_on image.now words.old) g) × (result.answer ≡ Answer.Done → Changed (decode image.now).labels (table_on image.now words.old) g words.new result.taken) }
{
    let number = g.protection;
    let meets = met_by(image, words, place, effect, g);
    let receipt = change_labels(words, entries, place, meets, is_protected(number), effect);
    let reception = receipt.reception;
    let taken = receipt.taken;
    match reception {
        Reception::Taken => Judged {
            answer: Answer::Done,
            taken: taken,
        },
        Reception::NoRoom => refused(Answer::NoWordForMapping),
    }
}

// 20 and 30, of a number that is not one that may come next.
fn turn_answer(fault: TurnError) -> Answer
    ensures { result ≡ turn_rule (Err fault) Answer.Done }
{
    match fault {
        TurnError::OutOfTurn => Answer::OutOfTurn,
        TurnError::ZeroNumber => Answer::ZeroNumber,
    }
}

// 33, 32, 20, 21: a message of that turn over the label words as its ACK leaves them. Where the answer is Done, the message has changed them.
fn judge_beside(
    image: &[u8],
    words: &mut [u32],
    entries: &[u64],
    effect: Option<(LabelMessage, Touched)>,
    turn: Result<u32, TurnError>,
    g: Message,
) -> Judged
    requires { (length image.now ≡ image_size) × (length words.old ≡ word_count) × (effect ≡ label_effect g) × (touches_none (label_effect g) ≡ false → valid_of words.old ≡ true) × (asks_entries (label_effect g) ≡ true → entries.now ≡ stored_index image.now) }
    ensures { (result.answer ≡ labels_rule (decode image.now).labels (table_on image.now words.old) turn g) × (result.answer ≡ Answer.Done → Changed (decode image.now).labels (table_on image.now words.old) g words.new result.taken) }
{
    let place = effect_place(words, effect);
    match judge_protection(words, entries, place, effect, g) {
        Protection::Missing => {
            return refused(Answer::ProtectionMissing);
        }
        Protection::Wrong => {
            return refused(Answer::ProtectionWrong);
        }
        Protection::Right => {}
    }
    match turn {
        Err(fault) => {
            return refused(turn_answer(fault));
        }
        Ok(_) => {}
    }
    judge_room(image, words, entries, place, effect, g)
}

// A Withdraw or Release of a prefix that names no label: only for these the entries of the image are read.
fn judge_prefix(
    image: &[u8],
    words: &mut [u32],
    effect: Option<(LabelMessage, Touched)>,
    turn: Result<u32, TurnError>,
    g: Message,
) -> Judged
    requires { (length image.now ≡ image_size) × (length words.old ≡ word_count) × (effect ≡ label_effect g) × (touches_none (label_effect g) ≡ false → valid_of words.old ≡ true) }
    ensures { (result.answer ≡ labels_rule (decode image.now).labels (table_on image.now words.old) turn g) × (result.answer ≡ Answer.Done → Changed (decode image.now).labels (table_on image.now words.old) g words.new result.taken) }
{
    let mut entries = [0u64; word_block::PLACE_COUNT];
    image::index_of(image, &mut entries);
    judge_beside(image, words, &entries, effect, turn, g)
}

fn judge_labels(image: &[u8], words: &mut [u32], turn: Result<u32, TurnError>, g: Message) -> Judged
    requires { (length image.now ≡ image_size) × (length words.old ≡ word_count) × (touches_none (label_effect g) ≡ false → valid_of words.old ≡ true) }
    ensures { (result.answer ≡ labels_rule (decode image.now).labels (table_on image.now words.old) turn g) × (result.answer ≡ Answer.Done → Changed (decode image.now).labels (table_on image.now words.old) g words.new result.taken) }
{
    let effect = label_effect(g);
    if asks_entries(effect) {
        return judge_prefix(image, words, effect, turn, g);
    }
    let none = [0u64; 1];
    judge_beside(image, words, &none, effect, turn, g)
}

// The label words as an ACK leaves them that releases so many messages; where nothing changes they are not read.
fn load_acked(image: &[u8], count: u32, g: Message, words: &mut [u32])
    requires { IsSound image.now × (count ≤ (decode image.now).header.held) × (length words.old ≡ word_count) }
    ensures { labels_stay (state_of image.now) count g ≡ false → words.new ≡ released_labels (take count (decode image.now).queue) (decode image.now).labels }
{
    if labels_stay(image, count, g) {
        return;
    }
    image::labels_of(image, words);
    calls::release_labels(image, count as usize, words);
}

// 34 and later: the ACK, and then the message. Where the answer is Done and a label may have changed, the words are those that both leave.
fn judge_ack(image: &[u8], h: Header, resumed: bool, g: Message, words: &mut [u32]) -> Judged
    requires { IsSound image.now × (h ≡ (decode image.now).header) × (length words.old ≡ word_count) }
    ensures { (result.answer ≡ ack_rule (state_of image.now) resumed g (ack_on (state_of image.now) g)) × (result.answer ≡ Answer.Done → Told (state_of image.now) g words.new result.taken) }
{
    let ack = g.ack;
    match ft_number::acknowledge(h.released, h.issued, ack_borne(h, ack)) {
        None => refused(Answer::AckSequenceError),
        Some(k) => {
            load_acked(image, k, g, words);
            let number = g.protection;
            judge_labels(image, words, turn_borne(h.secured, number, resumed), g)
        }
    }
}

// 22, 36, 30, and then the ACK: a message in UpFT.
pub fn judge_ft(image: &[u8], h: Header, resumed: bool, g: Message, words: &mut [u32]) -> Judged
    requires { IsSound image.now × (h ≡ (decode image.now).header) × (length words.old ≡ word_count) }
    ensures { (result.answer ≡ ft_rule (state_of image.now) resumed g) × (result.answer ≡ Answer.Done → Told (state_of image.now) g words.new result.taken) }
{
    let t = g.typename;
    if calls::is_init(t) {
        return refused(Answer::MalformedReceived);
    }
    let status = g.status;
    if is_fatal(status) {
        return refused(Answer::StatusFatal);
    }
    let number = g.protection;
    if is_zero(number) {
        return refused(Answer::ZeroNumber);
    }
    judge_ack(image, h, resumed, g, words)
}
