// An outcome as numbers.
ghost use Rattle.std.specs.Prelude.{◌<◌, ◌≡◌};
ghost use Rattle.image.specs.Sizes.{block_count};
ghost use Rattle.protocol.specs.Answers.{answer_block};
ghost use Rattle.session_numbers.specs.Outcome.{Narrow, outcome_numbers, unknown_phase};

use crate::phases::{bit_of, session_left};
use crate::{OutcomeNumbers, SessionNumbers};
use calls::{Answer, Outcome, Phase};

// The block that an answer names.
fn answer_block(a: Answer) -> u32
    requires { answer_block a < block_count }
    ensures { result ≡ answer_block a }
{
    match a {
        Answer::Done => 0,
        Answer::WrongPhase => 0,
        Answer::ZeroDistance => 0,
        Answer::LengthOutOfRange => 0,
        Answer::Malformed => 0,
        Answer::KindNotSent => 0,
        Answer::LabelNotAllowed => 0,
        Answer::StoreFull => 0,
        Answer::NothingUnsent => 0,
        Answer::OutputTooShort => 0,
        Answer::BadBlock(b) => b as u32,
        Answer::BadField(b) => b as u32,
        Answer::WrongSize => 0,
        Answer::NoLabelWord => 0,
        Answer::RequestsStopped => 0,
        Answer::RequestOutsideUpFt => 0,
        Answer::OutOfTurn => 0,
        Answer::NoWordForMapping => 0,
        Answer::MalformedReceived => 0,
        Answer::BadInit => 0,
        Answer::ZeroNumber => 0,
        Answer::FtTlvInPlain => 0,
        Answer::ProtectionWrong => 0,
        Answer::ProtectionMissing => 0,
        Answer::AckSequenceError => 0,
        Answer::ParametersChanged => 0,
        Answer::StatusFatal => 0,
    }
}

// The numbers of an outcome, where the session was given as s.
pub fn outcome_numbers(s: SessionNumbers, o: Outcome) -> OutcomeNumbers
    requires { Narrow o }
    ensures { result ≡ outcome_numbers s o }
{
    let a = o.answer;
    let phase = o.phase;
    OutcomeNumbers {
        answer: calls::answer_number(a),
        block: answer_block(a),
        session: session_left(calls::effect_of(a), s, phase),
        length: o.written as u32,
        slot: o.slot as u32,
        block0: bit_of(o.block0),
        further: o.further,
        leftout: o.leftout,
    }
}

// What a call answers where the numbers stand for no phase: restore's checks, and then 1.
pub fn refuse_unknown(image: &[u8], s: SessionNumbers) -> OutcomeNumbers
    ensures { result ≡ outcome_numbers s (unknown_phase image.now) }
{
    let a = calls::check(image);
    if !calls::is_done(a) {
        return outcome_numbers(s, calls::refuse(a, Phase::Idle));
    }
    outcome_numbers(s, calls::refuse(Answer::WrongPhase, Phase::Idle))
}
