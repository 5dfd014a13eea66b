// The first two tests of every call, and a refusal.
ghost use Rattle.std.specs.Prelude.{◌≡◌};
ghost use Rattle.image.specs.Verdict.{verdict};
ghost use Rattle.calls.specs.Outcomes.{checked, admitted_on, refusal};

use crate::answers::is_done;
use crate::phases::phase_fits;
use crate::{Answer, Outcome, Phase};
use image::ImageFault;

// Restore's checks, as an answer.
pub fn check(image: &[u8]) -> Answer
    ensures { result ≡ checked (verdict image.now) Answer.Done }
{
    match image::check_image(image) {
        Ok(()) => Answer::Done,
        Err(ImageFault::WrongSize) => Answer::WrongSize,
        Err(ImageFault::BadBlock(b)) => Answer::BadBlock(b),
        Err(ImageFault::BadField(b)) => Answer::BadField(b),
    }
}

// Restore's checks, and whether the image allows the phase: the first two tests of every call.
pub fn admit(image: &[u8], phase: Phase) -> Answer
    ensures { result ≡ admitted_on image.now phase Answer.Done }
{
    let a = check(image);
    if !is_done(a) {
        return a;
    }
    if !phase_fits(phase, image::header_of(image)) {
        return Answer::WrongPhase;
    }
    Answer::Done
}

// A refusal: that answer, the phase as given, nothing written and nothing to store.
pub fn refuse(answer: Answer, phase: Phase) -> Outcome
    ensures { result ≡ refusal answer phase }
{
    Outcome {
        answer: answer,
        phase: phase,
        written: 0,
        slot: 0,
        block0: false,
        further: 0,
        leftout: 0,
    }
}
