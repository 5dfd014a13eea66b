// Send next: the oldest held message not sent on this connection that is not left out, with its FT number.
#![tactic(auto)]

ghost use Rattle.std.specs.Prelude.{◌<◌, ◌≡◌};
ghost use Rattle.octets.specs.Differ.{differ};
ghost use Rattle.message_writer.specs.Written.{written_of};
ghost use Rattle.image.specs.Sizes.{block};
ghost use Rattle.image.specs.State.{decode};
ghost use Rattle.image.specs.Verdict.{IsSound};
ghost use Rattle.protocol.specs.Phases.{is_up_ft, resumed_of, sent_of};
ghost use Rattle.protocol.specs.Send.{queue_number, ack_asked, send_bytes, send_rule, sent_state};
ghost use Rattle.calls.specs.Outcomes.{after_with, admitted_on};
ghost use Rattle.calls.specs.State.{state_of, state_of_numbers};
ghost use Rattle.calls.specs.Storing.{stay, stored, same};
ghost use Rattle.send.specs.Send.{send_of};

use block0::Header;
use calls::{Answer, Outcome, Phase, Progress};
use ft_number::FtNumber;

mod leaving_out;

// Whether the phase is UpFT: messages are sent in no other.
fn is_up_ft(phase: Phase) -> bool
    ensures { result ≡ is_up_ft phase }
{
    matches!(phase, Phase::UpFT(_))
}

// The count sent on this connection.
fn sent_of(phase: Phase) -> u32
    ensures { result ≡ sent_of phase }
{
    match phase {
        Phase::UpFT(u) => u.sent,
        _ => 0,
    }
}

// Whether the connection is resumed.
fn is_resumed(phase: Phase) -> bool
    ensures { result ≡ resumed_of phase }
{
    match phase {
        Phase::UpFT(u) => u.resumed,
        _ => false,
    }
}

// 12, 1, 8: all tests but that of the room.
fn judge_send(image: &[u8], phase: Phase) -> Answer
    ensures { result ≡ admitted_on image.now phase (send_rule (state_of image.now) phase Answer.Done) }
{
    let a = calls::admit(image, phase);
    if !calls::is_done(a) {
        return a;
    }
    if !is_up_ft(phase) {
        return Answer::WrongPhase;
    }
    let h = image::header_of(image);
    if sent_of(phase) >= h.held as u32 {
        return Answer::NothingUnsent;
    }
    Answer::Done
}

// The number of the message at a place of the queue.
fn number_at(h: Header, place: u32) -> FtNumber
    requires { place < 65536 }
    ensures { result ≡ queue_number (state_of_numbers h) place }
{
    ft_number::advance(h.released, place + 1)
}

// The FT ACK to write.
#[tactic(auto, unfolding(protocol::specs::Send::ack_asked))]
fn ack_asked(ack: bool, h: Header) -> Option<FtNumber>
    ensures { result ≡ ack_asked ack (state_of_numbers h) }
{
    let secured = h.secured;
    if ack {
        return Some(secured);
    }
    None
}

// Writes the message at a place of the queue, with its number; the writer tests the room (9).
fn write_next(image: &[u8], place: u32, ack: bool, out: &mut [u8]) -> Option<usize>
    requires { IsSound image.now × (place < (decode image.now).header.held) }
    ensures { (result, out.new) ≡ written_of out.old (send_bytes (state_of image.now) place ack) }
{
    let h = image::header_of(image);
    let m = image::held_message(image, place as usize);
    message_writer::write_protected(out, m, number_at(h, place), ack_asked(ack, h))
}

// Numbers the message at a place of the queue, if it has no number. Whether block 0 changed.
fn issue(image: &mut [u8], place: u32) -> bool
    requires { IsSound image.old × (place < 65536) }
    ensures { (result ≡ differ (block image.old 0) (block image.new 0)) × (image.new ≡ stored image.old stay same (sent_state (state_of image.old) place)) }
{
    let h = image::header_of(image);
    if place < calls::issued_count(h) {
        return false;
    }
    let mut next = h;
    next.issued = number_at(h, place);
    calls::store_numbers(image, next)
}

// Sends the oldest message not sent on this connection that is not left out; `ack` asks for FT ACK. Those left out before it count as sent with it.
// Block 0 is stored before the output leaves.
pub fn send_next(image: &mut [u8], phase: Phase, ack: bool, out: &mut [u8]) -> Outcome
    ensures { after_with result image.new out.new ≡ send_of image.old phase ack out.old }
{
    let a = judge_send(image, phase);
    if !calls::is_done(a) {
        return calls::refuse(a, phase);
    }
    let sent = sent_of(phase);
    let leftout = leaving_out::left_out(image, sent);
    let place = sent + leftout;
    match write_next(image, place, ack, out) {
        None => calls::refuse(Answer::OutputTooShort, phase),
        Some(n) => Outcome {
            answer: Answer::Done,
            phase: Phase::UpFT(Progress {
                sent: place + 1,
                resumed: is_resumed(phase),
            }),
            written: n,
            slot: 0,
            block0: issue(image, place),
            further: 0,
            leftout,
        },
    }
}
