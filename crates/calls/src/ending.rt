// How a call ends that is not Done: nothing changed, as connection failed, or released.
ghost use Rattle.std.specs.Prelude.{[], ◌≡◌};
ghost use Rattle.image.specs.Verdict.{IsSound};
ghost use Rattle.calls.specs.Outcomes.{after_with, settle_of, untouched, failed_on, released_on};

use crate::admitting::refuse;
use crate::answers::effect_of;
use crate::phases::resting_phase;
use crate::{Answer, Effect, Outcome, Phase};

// As connection failed: the labels used without protection are freed, and the session rests. Where there are none, nothing is stored.
pub fn fail(image: &mut [u8], answer: Answer) -> Outcome
    requires { IsSound image.old }
    ensures { after_with result image.new [] ≡ failed_on answer image.old [] }
{
    let phase = resting_phase(image::header_of(image));
    if !image::has_unprotected(image) {
        return refuse(answer, phase);
    }
    image::free_unprotected(image);
    Outcome {
        answer: answer,
        phase: phase,
        written: 0,
        slot: 0,
        block0: true,
        further: 0,
        leftout: 0,
    }
}

// The state is released, and the session is idle; the slots keep their bytes. With kept 0 the image says so already, and nothing is stored.
pub fn release(image: &mut [u8], answer: Answer) -> Outcome
    requires { IsSound image.old }
    ensures { after_with result image.new [] ≡ released_on answer image.old [] }
{
    let h = image::header_of(image);
    if h.kept == 0 {
        return refuse(answer, Phase::Idle);
    }
    image::release(image);
    Outcome {
        answer: answer,
        phase: Phase::Idle,
        written: 0,
        slot: 0,
        block0: true,
        further: 0,
        leftout: 0,
    }
}

// What an answer leaves that is not Done; Done, which each call does itself, changes nothing here.
pub fn settle(image: &mut [u8], answer: Answer, phase: Phase) -> Outcome
    requires { IsSound image.old }
    ensures { after_with result image.new [] ≡ settle_of answer phase image.old [] (untouched answer phase image.old []) }
{
    match effect_of(answer) {
        Effect::Nothing => refuse(answer, phase),
        Effect::Fail => fail(image, answer),
        Effect::Release => release(image, answer),
        Effect::Act => refuse(answer, phase),
    }
}
