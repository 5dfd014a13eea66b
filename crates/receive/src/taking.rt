// The public call, and what a message leaves that is taken.
ghost use Rattle.std.specs.Prelude.{◌-◌, ◌≤◌, ◌<◌, [], ◌≡◌};
ghost use Rattle.octets.specs.Differ.{differ};
ghost use Rattle.tlv.specs.Element.{entry_by};
ghost use Rattle.message.specs.Reading.{reading_of};
ghost use Rattle.image.specs.Sizes.{block};
ghost use Rattle.image.specs.State.{decode};
ghost use Rattle.image.specs.Verdict.{IsSound};
ghost use Rattle.protocol.specs.Receive.{ack_on, ack_count, after_ack, message_takes, secured_by, received_state, read_rule, ft_rule, plain_rule};
ghost use Rattle.calls.specs.Outcomes.{after_with, settle_of};
ghost use Rattle.calls.specs.State.{state_of, state_of_numbers};
ghost use Rattle.calls.specs.Storing.{fewer, same, stored};
ghost use Rattle.receive.specs.Call.{Taken, header_taken, taken_ft, receive_of, taken_on};

use crate::judging::{judge_ft, judge_plain};
use crate::labels::labels_stay;
use crate::reading::{ack_borne, turn_borne, turn_gap};
use block0::Header;
use calls::{Answer, Outcome, Phase, Progress};
use ft_number::FtNumber;
use message::Message;

// How many messages the ACK releases.
fn ack_count(h: Header, g: Message) -> u32
    ensures { result ≡ ack_count (ack_on (state_of_numbers h) g) }
{
    let ack = g.ack;
    match ft_number::acknowledge(h.released, h.issued, ack_borne(h, ack)) {
        Some(k) => k,
        None => 0,
    }
}

// S after the message.
fn secured_by(secured: FtNumber, number: Option<FtNumber>) -> FtNumber
    ensures { result ≡ secured_by secured number }
{
    match number {
        None => secured,
        Some(n) => n,
    }
}

// The count sent on this connection, lowered by what was released.
fn lowered(sent: u32, k: u32) -> u32
    ensures { result ≡ sent - k }
{
    if sent < k {
        return 0;
    }
    sent - k
}

// Block 0's numbers after the ACK and the message.
fn next_header(h: Header, k: u32, g: Message) -> Header
    requires { k ≤ h.held }
    ensures { result ≡ header_taken h k g }
{
    let ack = g.ack;
    let number = g.protection;
    let mut next = calls::released_header(h, k, ack_borne(h, ack));
    next.secured = secured_by(h.secured, number);
    next.marks = calls::marks_heard(h.marks, message::kind_of(g));
    next
}

// Stores block 0 as a message leaves it whose ACK releases so many: the numbers alone where the label words stay. Whether it changed.
fn store_zeroth(image: &mut [u8], h: Header, k: u32, g: Message, words: &[u32]) -> bool
    requires { Taken image.old g words.now × (h ≡ (decode image.old).header) × (k ≡ ack_count (ack_on (state_of image.old) g)) }
    ensures { (image.new ≡ stored image.old (fewer (ack_count (ack_on (state_of image.old) g))) same (received_state (state_of image.old) g)) × (result ≡ differ (block image.old 0) (block image.new 0)) }
{
    let next = next_header(h, k, g);
    if labels_stay(image, k, g) {
        return calls::store_numbers(image, next);
    }
    calls::store_changed(image, next, words)
}

// A message that was judged Done in UpFT: the words are those that its ACK and the message leave. The entry of its FEC is stored at the word that its
// label takes, before block 0.
fn take_ft(
    image: &mut [u8],
    u: Progress,
    g: Message,
    words: &[u32],
    taken: Option<usize>,
) -> Outcome
    requires { Taken image.old g words.now × (taken ≡ message_takes (state_of image.old).table.words (after_ack (state_of image.old) g).table g) × (entry_by g.fec < 18446744073709551616) }
    ensures { after_with result image.new [] ≡ taken_ft image.old u g }
{
    let h = image::header_of(image);
    let k = ack_count(h, g);
    let number = g.protection;
    let turn = turn_borne(h.secured, number, u.resumed);
    let fec = g.fec;
    let further = calls::store_taken(image, taken, tlv::element::entry_by(fec));
    let changed = store_zeroth(image, h, k, g, words);
    Outcome {
        answer: Answer::Done,
        phase: Phase::UpFT(Progress {
            sent: lowered(u.sent, k),
            resumed: u.resumed,
        }),
        written: 0,
        slot: 0,
        block0: changed,
        further: further,
        leftout: turn_gap(turn),
    }
}

// A well-formed message in UpFT.
fn receive_ft(image: &mut [u8], u: Progress, g: Message) -> Outcome
    requires { IsSound image.old × (entry_by g.fec < 18446744073709551616) }
    ensures { after_with result image.new [] ≡ settle_of (ft_rule (state_of image.old) u.resumed g) (Phase.UpFT u) image.old [] (taken_ft image.old u g) }
{
    let mut words = [0u32; label_list::WORD_COUNT];
    let judged = judge_ft(image, image::header_of(image), u.resumed, g, &mut words);
    let a = judged.answer;
    let taken = judged.taken;
    if !calls::is_done(a) {
        return calls::settle(image, a, Phase::UpFT(u));
    }
    take_ft(image, u, g, &words, taken)
}

fn receive_up(image: &mut [u8], u: Progress, msg: &[u8]) -> Outcome
    requires { IsSound image.old }
    ensures { after_with result image.new [] ≡ settle_of (read_rule (reading_of msg.now) (ft_rule (state_of image.old) u.resumed)) (Phase.UpFT u) image.old [] (taken_on image.old (Phase.UpFT u) (reading_of msg.now)) }
{
    match message::read_message(msg) {
        None => calls::settle(image, Answer::MalformedReceived, Phase::UpFT(u)),
        Some(g) => receive_ft(image, u, g),
    }
}

// In UpPlain a message is passed on: nothing changes where it is taken.
fn receive_plain(image: &mut [u8], msg: &[u8]) -> Outcome
    requires { IsSound image.old }
    ensures { after_with result image.new [] ≡ settle_of (read_rule (reading_of msg.now) plain_rule) Phase.UpPlain image.old [] (taken_on image.old Phase.UpPlain (reading_of msg.now)) }
{
    match message::read_message(msg) {
        None => calls::settle(image, Answer::MalformedReceived, Phase::UpPlain),
        Some(g) => calls::settle(image, judge_plain(g), Phase::UpPlain),
    }
}

// One message of the peer's.
pub fn receive(image: &mut [u8], phase: Phase, msg: &[u8]) -> Outcome
    ensures { after_with result image.new [] ≡ receive_of image.old phase msg.now }
{
    let a = calls::admit(image, phase);
    if !calls::is_done(a) {
        return calls::refuse(a, phase);
    }
    match phase {
        Phase::Idle => calls::refuse(Answer::WrongPhase, phase),
        Phase::InitWait(_) => calls::refuse(Answer::WrongPhase, phase),
        Phase::UpFT(u) => receive_up(image, u, msg),
        Phase::UpPlain => receive_plain(image, msg),
        Phase::Failed => calls::refuse(Answer::WrongPhase, phase),
    }
}
