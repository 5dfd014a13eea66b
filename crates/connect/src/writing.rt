// Open and KeepAlive: the messages that a session writes of its own. They leave the image, so they are lent it to read.
ghost use Rattle.std.specs.Prelude.{◌≡◌};
ghost use Rattle.protocol.specs.KeepAlive.{alive_ack};
ghost use Rattle.protocol.specs.Open.{kept_ack};
ghost use Rattle.protocol.specs.Phases.{is_up, may_open};
ghost use Rattle.calls.specs.Outcomes.{after_with};
ghost use Rattle.calls.specs.State.{state_of_numbers};
ghost use Rattle.connect.specs.Answered.{written_as};
ghost use Rattle.connect.specs.Writers.{open_of, keepalive_of};

use block0::Header;
use calls::{Answer, Outcome, Phase, Waiting};
use ft_number::{FtNumber, MessageId, Proposal};
use message_writer::OwnParameters;

// The ACK that our Init bears, and with it R: of kept state alone.
fn kept_ack(h: Header) -> Option<FtNumber>
    ensures { result ≡ kept_ack (state_of_numbers h) }
{
    let secured = h.secured;
    if h.kept == 1 {
        return Some(secured);
    }
    None
}

// Whether Open may come in the phase.
fn opens_in(phase: Phase) -> bool
    ensures { result ≡ may_open phase }
{
    match phase {
        Phase::Idle => true,
        Phase::InitWait(_) => false,
        Phase::UpFT(_) => false,
        Phase::UpPlain => false,
        Phase::Failed => true,
    }
}

// Whether the session is up.
fn is_up(phase: Phase) -> bool
    ensures { result ≡ is_up phase }
{
    match phase {
        Phase::Idle => false,
        Phase::InitWait(_) => false,
        Phase::UpFT(_) => true,
        Phase::UpPlain => true,
        Phase::Failed => false,
    }
}

// The ACK that a KeepAlive bears: in UpFT alone.
fn alive_ack(phase: Phase, secured: FtNumber) -> Option<FtNumber>
    ensures { result ≡ alive_ack phase secured }
{
    match phase {
        Phase::Idle => None,
        Phase::InitWait(_) => None,
        Phase::UpFT(_) => Some(secured),
        Phase::UpPlain => None,
        Phase::Failed => None,
    }
}

// What is answered to what was written: the phase is then `next`.
fn answer_written(written: Option<usize>, phase: Phase, next: Phase) -> Outcome
    ensures { result ≡ written_as written phase next }
{
    match written {
        None => calls::refuse(Answer::OutputTooShort, phase),
        Some(n) => Outcome {
            answer: Answer::Done,
            phase: next,
            written: n,
            slot: 0,
            block0: false,
            further: 0,
            leftout: 0,
        },
    }
}

// Writes our Init for a new connection; the peer's is then awaited.
pub fn open_session(
    image: &[u8],
    phase: Phase,
    id: MessageId,
    parameters: OwnParameters,
    proposal: Proposal,
    out: &mut [u8],
) -> Outcome
    ensures { after_with result image.now out.new ≡ open_of image.now phase id parameters proposal out.old }
{
    let a = calls::admit(image, phase);
    if !calls::is_done(a) {
        return calls::refuse(a, phase);
    }
    if !opens_in(phase) {
        return calls::refuse(Answer::WrongPhase, phase);
    }
    let timeout = ft_number::proposed_timeout(proposal);
    let millis = ft_number::milliseconds(timeout);
    let ack = kept_ack(image::header_of(image));
    let written = message_writer::write_init(out, id, parameters, timeout, ack);
    answer_written(written, phase, Phase::InitWait(Waiting { timeout: millis }))
}

// Writes a KeepAlive.
pub fn keepalive(image: &[u8], phase: Phase, id: MessageId, out: &mut [u8]) -> Outcome
    ensures { after_with result image.now out.new ≡ keepalive_of image.now phase id out.old }
{
    let a = calls::admit(image, phase);
    if !calls::is_done(a) {
        return calls::refuse(a, phase);
    }
    if !is_up(phase) {
        return calls::refuse(Answer::WrongPhase, phase);
    }
    let h = image::header_of(image);
    let ack = alive_ack(phase, h.secured);
    let written = message_writer::write_keepalive(out, id, ack);
    answer_written(written, phase, phase)
}
