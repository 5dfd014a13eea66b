// The phases: which the image rules out, and the one with no connection.
ghost use Rattle.std.specs.Prelude.{◌≡◌};
ghost use Rattle.protocol.specs.Phases.{issued_count, phase_fits, resting_phase};
ghost use Rattle.calls.specs.State.{state_of_numbers};

use crate::Phase;
use block0::Header;

// How many of the held messages have a number: the steps from R to I.
pub fn issued_count(h: Header) -> u32
    ensures { result ≡ issued_count (state_of_numbers h) }
{
    match ft_number::steps_between(h.released, h.issued) {
        Some(k) => k,
        None => 0,
    }
}

// Whether the image allows the phase: Idle and UpPlain with kept 0, Failed and UpFT with kept 1, UpFT's count sent at most the issued count,
// InitWait always.
pub fn phase_fits(phase: Phase, h: Header) -> bool
    ensures { result ≡ phase_fits phase (state_of_numbers h) }
{
    match phase {
        Phase::Idle => h.kept != 1,
        Phase::InitWait(_) => true,
        Phase::UpFT(u) => {
            if h.kept != 1 {
                return false;
            }
            u.sent <= issued_count(h)
        }
        Phase::UpPlain => h.kept != 1,
        Phase::Failed => h.kept == 1,
    }
}

// The phase of a session with no connection: Failed if its state is kept, else Idle.
pub fn resting_phase(h: Header) -> Phase
    ensures { result ≡ resting_phase (state_of_numbers h) }
{
    if h.kept == 1 {
        return Phase::Failed;
    }
    Phase::Idle
}
