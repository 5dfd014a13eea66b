// A session that has begun: messages submitted, sent and received, KeepAlives, and the two events.
ghost use Rattle.std.specs.Prelude.{[], ◌≡◌};
ghost use Rattle.session_numbers.specs.Outcome.{shown, shown_call};
ghost use Rattle.connect.specs.Writers.{keepalive_of};
ghost use Rattle.receive.specs.Call.{receive_of};
ghost use Rattle.send.specs.Send.{send_of};
ghost use Rattle.submit.specs.Call.{submit_of};
ghost use Rattle.timers.specs.Events.{connection_failed_of, time_passed_of};
ghost use Rattle.call_numbers.specs.Opening.{id_of};

use ft_number::MessageId;
use session_numbers::{
    OutcomeNumbers, SessionNumbers, outcome_numbers, phase_given, refuse_unknown,
};

// The connection has failed.
pub fn connection_failed(image: &mut [u8], s: SessionNumbers) -> OutcomeNumbers
    ensures { shown result image.new [] ≡ shown_call s image.old [] (λ ph. connection_failed_of image.old ph) }
{
    match phase_given(s) {
        Some(phase) => {
            let o = timers::connection_failed(image, phase);
            outcome_numbers(s, o)
        }
        None => refuse_unknown(image, s),
    }
}

// So many milliseconds have passed since the connection failed.
pub fn time_passed(image: &mut [u8], s: SessionNumbers, elapsed: u32) -> OutcomeNumbers
    ensures { shown result image.new [] ≡ shown_call s image.old [] (λ ph. time_passed_of image.old ph elapsed) }
{
    match phase_given(s) {
        Some(phase) => {
            let o = timers::time_passed(image, phase, elapsed);
            outcome_numbers(s, o)
        }
        None => refuse_unknown(image, s),
    }
}

// A message to be sent.
pub fn submit(image: &mut [u8], s: SessionNumbers, msg: &[u8]) -> OutcomeNumbers
    ensures { shown result image.new [] ≡ shown_call s image.old [] (λ ph. submit_of image.old ph msg.now) }
{
    match phase_given(s) {
        Some(phase) => {
            let o = submit::submit(image, phase, msg);
            outcome_numbers(s, o)
        }
        None => refuse_unknown(image, s),
    }
}

// The next message to send.
pub fn send_next(image: &mut [u8], s: SessionNumbers, ack: bool, out: &mut [u8]) -> OutcomeNumbers
    ensures { shown result image.new out.new ≡ shown_call s image.old out.old (λ ph. send_of image.old ph ack out.old) }
{
    match phase_given(s) {
        Some(phase) => {
            let o = send::send_next(image, phase, ack, out);
            outcome_numbers(s, o)
        }
        None => refuse_unknown(image, s),
    }
}

// A KeepAlive.
pub fn keepalive(image: &[u8], s: SessionNumbers, id: u32, out: &mut [u8]) -> OutcomeNumbers
    ensures { shown result image.now out.new ≡ shown_call s image.now out.old (λ ph. keepalive_of image.now ph (id_of id) out.old) }
{
    match phase_given(s) {
        Some(phase) => {
            let o = connect::keepalive(image, phase, MessageId(id), out);
            outcome_numbers(s, o)
        }
        None => refuse_unknown(image, s),
    }
}

// A message of the peer's.
pub fn receive(image: &mut [u8], s: SessionNumbers, msg: &[u8]) -> OutcomeNumbers
    ensures { shown result image.new [] ≡ shown_call s image.old [] (λ ph. receive_of image.old ph msg.now) }
{
    match phase_given(s) {
        Some(phase) => {
            let o = receive::receive(image, phase, msg);
            outcome_numbers(s, o)
        }
        None => refuse_unknown(image, s),
    }
}
