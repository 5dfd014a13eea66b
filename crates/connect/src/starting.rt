// Format and Restore.
ghost use Rattle.std.specs.Prelude.{[], ◌≡◌};
ghost use Rattle.calls.specs.Outcomes.{after_with};
ghost use Rattle.connect.specs.Start.{format_of, restore_of};

use calls::{Answer, Outcome, Phase};

// The bits of all further blocks.
const EVERY_FURTHER: u32 = 7;

// A new image; every block of it is to be stored.
pub fn format(image: &mut [u8]) -> Outcome
    ensures { after_with result image.new [] ≡ format_of image.old }
{
    let verdict = image::format(image);
    if image::verdict_number(verdict) != 0 {
        return calls::refuse(Answer::WrongSize, Phase::Idle);
    }
    Outcome {
        answer: Answer::Done,
        phase: Phase::Idle,
        written: 0,
        slot: 0,
        block0: true,
        further: EVERY_FURTHER,
        leftout: 0,
    }
}

// The session of a stored image, as after a break.
pub fn restore(image: &mut [u8]) -> Outcome
    ensures { after_with result image.new [] ≡ restore_of image.old }
{
    let a = calls::check(image);
    if !calls::is_done(a) {
        return calls::refuse(a, Phase::Idle);
    }
    calls::fail(image, Answer::Done)
}
