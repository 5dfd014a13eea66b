// Connection failed and Time passed: the events that come without a message.
#![tactic(auto)]

ghost use Rattle.std.specs.Prelude.{[], ◌≡◌};
ghost use Rattle.protocol.specs.Phases.{connected, waiting};
ghost use Rattle.protocol.specs.TimePassed.{expired};
ghost use Rattle.calls.specs.Outcomes.{after_with, admitted_on};
ghost use Rattle.calls.specs.State.{state_of_numbers};
ghost use Rattle.timers.specs.Events.{connection_failed_of, time_passed_of, event_rule};

use block0::Header;
use calls::{Answer, Outcome, Phase};

// Whether the phase has a connection.
fn is_connected(phase: Phase) -> bool
    ensures { result ≡ connected phase }
{
    match phase {
        Phase::Idle => false,
        Phase::InitWait(_) => true,
        Phase::UpFT(_) => true,
        Phase::UpPlain => true,
        Phase::Failed => false,
    }
}

// Whether the timeout runs in the phase.
fn is_waiting(phase: Phase) -> bool
    ensures { result ≡ waiting phase }
{
    match phase {
        Phase::Idle => false,
        Phase::InitWait(_) => false,
        Phase::UpFT(_) => false,
        Phase::UpPlain => false,
        Phase::Failed => true,
    }
}

// 12, 1: `may` says whether the event may come in the phase.
fn judge_event(image: &[u8], phase: Phase, may: bool) -> Answer
    ensures { result ≡ admitted_on image.now phase (event_rule may) }
{
    let a = calls::admit(image, phase);
    if !calls::is_done(a) {
        return a;
    }
    if !may {
        return Answer::WrongPhase;
    }
    Answer::Done
}

// Whether the agreed timeout has passed. A timeout of zero keeps the state for ever.
fn has_expired(h: Header, elapsed: u32) -> bool
    ensures { result ≡ expired (state_of_numbers h) elapsed }
{
    if h.timeout == 0 {
        return false;
    }
    elapsed >= h.timeout
}

// The connection failed: labels used without protection are freed; the session waits in Failed if its state is kept, and else is Idle.
pub fn connection_failed(image: &mut [u8], phase: Phase) -> Outcome
    ensures { after_with result image.new [] ≡ connection_failed_of image.old phase }
{
    let a = judge_event(image, phase, is_connected(phase));
    if !calls::is_done(a) {
        return calls::refuse(a, phase);
    }
    calls::fail(image, Answer::Done)
}

// So many milliseconds have passed since the connection failed: the state is released once the agreed timeout has passed.
pub fn time_passed(image: &mut [u8], phase: Phase, elapsed: u32) -> Outcome
    ensures { after_with result image.new [] ≡ time_passed_of image.old phase elapsed }
{
    let a = judge_event(image, phase, is_waiting(phase));
    if !calls::is_done(a) {
        return calls::refuse(a, phase);
    }
    if !has_expired(image::header_of(image), elapsed) {
        // Too early: done, with nothing changed.
        return calls::refuse(Answer::Done, phase);
    }
    calls::release(image, Answer::Done)
}
