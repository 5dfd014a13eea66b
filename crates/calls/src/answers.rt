// The answers: the number of each, and what it leaves.
ghost use Rattle.std.specs.Prelude.{◌≡◌};
ghost use Rattle.protocol.specs.Answers.{answer_number, effect_of, is_done};

use crate::{Answer, Effect};

// The number of an answer in 01's table.
pub fn answer_number(a: Answer) -> u32
    ensures { result ≡ answer_number a }
{
    match a {
        Answer::Done => 0,
        Answer::WrongPhase => 1,
        Answer::ZeroDistance => 2,
        Answer::LengthOutOfRange => 3,
        Answer::Malformed => 4,
        Answer::KindNotSent => 5,
        Answer::LabelNotAllowed => 6,
        Answer::StoreFull => 7,
        Answer::NothingUnsent => 8,
        Answer::OutputTooShort => 9,
        Answer::BadBlock(_) => 10,
        Answer::BadField(_) => 11,
        Answer::WrongSize => 12,
        Answer::NoLabelWord => 13,
        Answer::RequestsStopped => 14,
        Answer::RequestOutsideUpFt => 15,
        Answer::OutOfTurn => 20,
        Answer::NoWordForMapping => 21,
        Answer::MalformedReceived => 22,
        Answer::BadInit => 23,
        Answer::ZeroNumber => 30,
        Answer::FtTlvInPlain => 31,
        Answer::ProtectionWrong => 32,
        Answer::ProtectionMissing => 33,
        Answer::AckSequenceError => 34,
        Answer::ParametersChanged => 35,
        Answer::StatusFatal => 36,
    }
}

// What an answer leaves: 0 acts, 1 to 15 nothing, 20 to 23 as connection failed, 30 to 36 released.
pub fn effect_of(a: Answer) -> Effect
    ensures { result ≡ effect_of a }
{
    let n = answer_number(a);
    if n == 0 {
        return Effect::Act;
    }
    if n < 20 {
        return Effect::Nothing;
    }
    if n < 30 {
        return Effect::Fail;
    }
    Effect::Release
}

// Whether an answer is Done.
pub fn is_done(a: Answer) -> bool
    ensures { result ≡ is_done a }
{
    answer_number(a) == 0
}
