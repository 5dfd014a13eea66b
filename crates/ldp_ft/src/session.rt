// The ten calls of a session.
ghost use Rattle.std.specs.Prelude.{[], ◌≡◌};
ghost use Rattle.session_numbers.specs.Outcome.{shown, shown_from, idle, shown_call};
ghost use Rattle.connect.specs.Start.{format_of, restore_of};
ghost use Rattle.connect.specs.Writers.{open_of, keepalive_of};
ghost use Rattle.init.specs.Received.{init_received_of};
ghost use Rattle.receive.specs.Call.{receive_of};
ghost use Rattle.send.specs.Send.{send_of};
ghost use Rattle.submit.specs.Call.{submit_of};
ghost use Rattle.timers.specs.Events.{connection_failed_of, time_passed_of};
ghost use Rattle.call_numbers.specs.Opening.{id_of, parameters_of, form_of, proposal_given};

use session_numbers::{OutcomeNumbers, SessionNumbers};

#[unsafe(no_mangle)]
pub extern "C" fn ldp_ft_format(image: &mut [u8]) -> OutcomeNumbers
    ensures { shown result image.new [] ≡ shown_from idle (format_of image.old) }
{
    call_numbers::format(image)
}

#[unsafe(no_mangle)]
pub extern "C" fn ldp_ft_restore(image: &mut [u8]) -> OutcomeNumbers
    ensures { shown result image.new [] ≡ shown_from idle (restore_of image.old) }
{
    call_numbers::restore(image)
}

#[unsafe(no_mangle)]
pub extern "C" fn ldp_ft_open(
    image: &[u8],
    s: SessionNumbers,
    id: u32,
    keepalive: u16,
    maxpdu: u16,
    lsr: u32,
    space: u16,
    given: bool,
    proposal: u32,
    ondemand: bool,
    published: bool,
    out: &mut [u8],
) -> OutcomeNumbers
    ensures { shown result image.now out.new ≡ shown_call s image.now out.old (λ ph. open_of image.now ph (id_of id) (parameters_of keepalive maxpdu lsr space ondemand) (proposal_given given (form_of published) proposal) out.old) }
{
    call_numbers::open(
        image, s, id, keepalive, maxpdu, lsr, space, given, proposal, ondemand, published, out,
    )
}

#[unsafe(no_mangle)]
pub extern "C" fn ldp_ft_init_received(
    image: &mut [u8],
    s: SessionNumbers,
    msg: &[u8],
) -> OutcomeNumbers
    ensures { shown result image.new [] ≡ shown_call s image.old [] (λ ph. init_received_of image.old ph msg.now) }
{
    call_numbers::init_received(image, s, msg)
}

#[unsafe(no_mangle)]
pub extern "C" fn ldp_ft_connection_failed(image: &mut [u8], s: SessionNumbers) -> OutcomeNumbers
    ensures { shown result image.new [] ≡ shown_call s image.old [] (λ ph. connection_failed_of image.old ph) }
{
    call_numbers::connection_failed(image, s)
}

#[unsafe(no_mangle)]
pub extern "C" fn ldp_ft_time_passed(
    image: &mut [u8],
    s: SessionNumbers,
    elapsed: u32,
) -> OutcomeNumbers
    ensures { shown result image.new [] ≡ shown_call s image.old [] (λ ph. time_passed_of image.old ph elapsed) }
{
    call_numbers::time_passed(image, s, elapsed)
}

#[unsafe(no_mangle)]
pub extern "C" fn ldp_ft_submit(image: &mut [u8], s: SessionNumbers, msg: &[u8]) -> OutcomeNumbers
    ensures { shown result image.new [] ≡ shown_call s image.old [] (λ ph. submit_of image.old ph msg.now) }
{
    call_numbers::submit(image, s, msg)
}

#[unsafe(no_mangle)]
pub extern "C" fn ldp_ft_send_next(
    image: &mut [u8],
    s: SessionNumbers,
    ack: bool,
    out: &mut [u8],
) -> OutcomeNumbers
    ensures { shown result image.new out.new ≡ shown_call s image.old out.old (λ ph. send_of image.old ph ack out.old) }
{
    call_numbers::send_next(image, s, ack, out)
}

#[unsafe(no_mangle)]
pub extern "C" fn ldp_ft_keepalive(
    image: &[u8],
    s: SessionNumbers,
    id: u32,
    out: &mut [u8],
) -> OutcomeNumbers
    ensures { shown result image.now out.new ≡ shown_call s image.now out.old (λ ph. keepalive_of image.now ph (id_of id) out.old) }
{
    call_numbers::keepalive(image, s, id, out)
}

#[unsafe(no_mangle)]
pub extern "C" fn ldp_ft_receive(image: &mut [u8], s: SessionNumbers, msg: &[u8]) -> OutcomeNumbers
    ensures { shown result image.new [] ≡ shown_call s image.old [] (λ ph. receive_of image.old ph msg.now) }
{
    call_numbers::receive(image, s, msg)
}
