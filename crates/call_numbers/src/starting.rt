// How a session begins: a new image, a restored one, our Init and the peer's.
ghost use Rattle.std.specs.Prelude.{[], ◌≡◌};
ghost use Rattle.session_numbers.specs.Outcome.{shown, shown_from, idle, shown_call};
ghost use Rattle.connect.specs.Start.{format_of, restore_of};
ghost use Rattle.connect.specs.Writers.{open_of};
ghost use Rattle.init.specs.Received.{init_received_of};
ghost use Rattle.call_numbers.specs.Opening.{id_of, parameters_of, form_of, timeout_given, proposal_given};

use calls::Phase;
use ft_number::{Form, MessageId, Proposal, Timeout};
use message_writer::OwnParameters;
use session_numbers::{
    OutcomeNumbers, SessionNumbers, outcome_numbers, phase_given, refuse_unknown, session_of,
};

// A new image.
pub fn format(image: &mut [u8]) -> OutcomeNumbers
    ensures { shown result image.new [] ≡ shown_from idle (format_of image.old) }
{
    let formatted = connect::format(image);
    outcome_numbers(session_of(Phase::Idle), formatted)
}

// The session of a stored image.
pub fn restore(image: &mut [u8]) -> OutcomeNumbers
    ensures { shown result image.new [] ≡ shown_from idle (restore_of image.old) }
{
    let restored = connect::restore(image);
    outcome_numbers(session_of(Phase::Idle), restored)
}

fn form_of(published: bool) -> Form
    ensures { result ≡ form_of published }
{
    if published {
        return Form::Published;
    }
    Form::Draft
}

// A timeout in the unit of its form; the draft's can say no more than 65,535 seconds.
fn timeout_given(form: Form, proposal: u32) -> Timeout
    ensures { result ≡ timeout_given form proposal }
{
    match form {
        Form::Draft => {
            if 65535 < proposal {
                return Timeout::Seconds(65535);
            }
            Timeout::Seconds(proposal as u16)
        }
        Form::Published => Timeout::Milliseconds(proposal),
    }
}

fn proposal_of(given: bool, form: Form, proposal: u32) -> Proposal
    ensures { result ≡ proposal_given given form proposal }
{
    if given {
        return Proposal::Given(timeout_given(form, proposal));
    }
    Proposal::NotGiven(form)
}

// Our Init.
pub fn open(
    image: &[u8],
    s: SessionNumbers,
    id: u32,
    keepalive: u16,
    maxpdu: u16,
    lsr: u32,
    space: u16,
    given: bool,
    proposal: u32,
    ondemand: bool,
    published: bool,
    out: &mut [u8],
) -> OutcomeNumbers
    ensures { shown result image.now out.new ≡ shown_call s image.now out.old (λ ph. open_of image.now ph (id_of id) (parameters_of keepalive maxpdu lsr space ondemand) (proposal_given given (form_of published) proposal) out.old) }
{
    let parameters = OwnParameters {
        keepalive: keepalive,
        pdulength: maxpdu,
        lsr: lsr,
        space: space,
        ondemand: ondemand,
    };
    let proposed = proposal_of(given, form_of(published), proposal);
    match phase_given(s) {
        Some(phase) => {
            let o = connect::open_session(image, phase, MessageId(id), parameters, proposed, out);
            outcome_numbers(s, o)
        }
        None => refuse_unknown(image, s),
    }
}

// The peer's Init.
pub fn init_received(image: &mut [u8], s: SessionNumbers, msg: &[u8]) -> OutcomeNumbers
    ensures { shown result image.new [] ≡ shown_call s image.old [] (λ ph. init_received_of image.old ph msg.now) }
{
    match phase_given(s) {
        Some(phase) => {
            let o = init::init_received(image, phase, msg);
            outcome_numbers(s, o)
        }
        None => refuse_unknown(image, s),
    }
}
