// The ten calls, each with the numbers of its line.
use crate::script::{NONE, Numbers};
use calls::{Outcome, Phase};
use ft_number::{Form, MessageId, Proposal, Timeout};
use message_writer::OwnParameters;

// One of the ten.
#[derive(Clone, Copy)]
pub enum Call {
    Format,
    Restore,
    Open,
    Init,
    Submit,
    Send,
    Receive,
    KeepAlive,
    ConnectionFailed,
    TimePassed,
}

// The parameters of P2 at place 2, of P1 at the others.
fn parameters(place: u32, ondemand: bool) -> OwnParameters {
    if place == 2 {
        return OwnParameters {
            keepalive: 15,
            pdulength: 1500,
            lsr: 0x0a000001,
            space: 0,
            ondemand: ondemand,
        };
    }
    OwnParameters {
        keepalive: 30,
        pdulength: 4096,
        lsr: 0x0a000002,
        space: 0,
        ondemand: ondemand,
    }
}

// Whether Open asks for labels on demand: 1, or 3 with the published form.
fn is_on_demand(n: u32) -> bool {
    match n {
        1 => true,
        3 => true,
        _ => false,
    }
}

// The form of its Init: 2 or 3 for the published one.
fn form_of(n: u32) -> Form {
    match n {
        2 => Form::Published,
        3 => Form::Published,
        _ => Form::Draft,
    }
}

// A timeout in the unit of its form, or none.
fn proposal(n: u32, form: Form) -> Proposal {
    if n == NONE {
        return Proposal::NotGiven(form);
    }
    match form {
        Form::Draft => Proposal::Given(Timeout::Seconds((n % 65536) as u16)),
        Form::Published => Proposal::Given(Timeout::Milliseconds(n)),
    }
}

// Makes a call; the room for its output is `out`.
pub fn make(
    call: Call,
    n: Numbers,
    image: &mut [u8],
    phase: Phase,
    msg: &[u8],
    out: &mut [u8],
) -> Outcome {
    match call {
        Call::Format => session::format(image),
        Call::Restore => session::restore(image),
        Call::Open => {
            let own = parameters(n.place, is_on_demand(n.fourth));
            let proposed = proposal(n.third, form_of(n.fourth));
            session::open_session(image, phase, MessageId(1), own, proposed, out)
        }
        Call::Init => session::init_received(image, phase, msg),
        Call::Submit => session::submit(image, phase, msg),
        Call::Send => session::send_next(image, phase, n.third == 1, out),
        Call::Receive => session::receive(image, phase, msg),
        Call::KeepAlive => session::keepalive(image, phase, MessageId(2), out),
        Call::ConnectionFailed => session::connection_failed(image, phase),
        Call::TimePassed => session::time_passed(image, phase, n.second),
    }
}
