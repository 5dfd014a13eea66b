// A message as numbers.
ghost use Rattle.std.specs.Prelude.{◌≤◌, ◌≡◌};
ghost use Rattle.tlv.specs.Value.{Places};
ghost use Rattle.message.specs.Reading.{message_of};
ghost use Rattle.message_numbers.specs.Reading.{borne, has_of, field_number, ft_number, id_number, reconnect_of, timeout_in, published_in, keepalive_in, maxpdu_in, NarrowMessage, no_message, whole_message};

use crate::MessageNumbers;
use ft_number::{FtNumber, MessageId, Timeout};
use message::{Found, Parameters, Session};
use tlv::value;

// The bit of a TLV that was found.
fn bit_where(place: usize, bit: u32) -> u32
    requires { bit ≤ 128 }
    ensures { (result ≡ borne place bit) × (result ≤ 128) }
{
    if place == 0 {
        return 0;
    }
    bit
}

fn has_of(found: Found) -> u32
    ensures { result ≡ has_of found }
{
    bit_where(found.fec, 1)
        + bit_where(found.label, 2)
        + bit_where(found.status, 4)
        + bit_where(found.parameters, 8)
        + bit_where(found.session, 16)
        + bit_where(found.protection, 32)
        + bit_where(found.ack, 64)
        + bit_where(found.requestid, 128)
}

fn field_number(field: Option<u32>) -> u32
    ensures { result ≡ field_number field }
{
    match field {
        None => 0,
        Some(v) => v,
    }
}

fn ft_number(field: Option<FtNumber>) -> u32
    ensures { result ≡ ft_number field }
{
    match field {
        None => 0,
        Some(n) => n.0,
    }
}

fn id_number(field: Option<MessageId>) -> u32
    ensures { result ≡ id_number field }
{
    match field {
        None => 0,
        Some(id) => id.0,
    }
}

fn reconnect_of(session: Option<Session>) -> u32
    ensures { result ≡ reconnect_of session }
{
    match session {
        None => 0,
        Some(s) => {
            if s.reconnect {
                return 1;
            }
            0
        }
    }
}

// The timeout of FT Session in the unit of its form.
fn timeout_of(session: Option<Session>) -> u32
    ensures { result ≡ timeout_in session }
{
    match session {
        None => 0,
        Some(s) => match s.timeout {
            Timeout::Seconds(n) => n as u32,
            Timeout::Milliseconds(n) => n,
        },
    }
}

// 1 where FT Session has the published form.
fn published_of(session: Option<Session>) -> u32
    ensures { result ≡ published_in session }
{
    match session {
        None => 0,
        Some(s) => match s.timeout {
            Timeout::Seconds(n) => 0,
            Timeout::Milliseconds(n) => 1,
        },
    }
}

fn keepalive_of(parameters: Option<Parameters>) -> u32
    ensures { result ≡ keepalive_in parameters }
{
    match parameters {
        None => 0,
        Some(p) => p.keepalive as u32,
    }
}

fn maxpdu_of(parameters: Option<Parameters>) -> u32
    ensures { result ≡ maxpdu_in parameters }
{
    match parameters {
        None => 0,
        Some(p) => p.pdulength as u32,
    }
}

// A malformed message.
pub fn no_message() -> MessageNumbers
    ensures { result ≡ no_message }
{
    MessageNumbers {
        answer: 22,
        typenumber: 0,
        id: 0,
        kind: 0,
        has: 0,
        fecstart: 0,
        fecend: 0,
        label: 0,
        status: 0,
        number: 0,
        ack: 0,
        reconnect: 0,
        timeout: 0,
        keepalive: 0,
        maxpdu: 0,
        requestid: 0,
        statusid: 0,
        published: 0,
    }
}

// A well-formed message, whose TLVs stand at those places. Each number is read where it stands: the message as one value is not made.
pub fn whole_message(m: &[u8], found: Found) -> MessageNumbers
    requires { Places m.now found × NarrowMessage (message_of m.now found) }
    ensures { result ≡ whole_message (message_of m.now found) }
{
    // Made first, so that the compiler does not load the places in pairs (DECISIONS 116).
    let has = has_of(found);
    let number = message::number_in(m);
    let id = message::id_in(m);
    let requestid = value::id_at(m, found.requestid, 0);
    let kind = message::kind_for(
        message::type_of(number),
        value::field_at(m, found.status),
        id,
        requestid,
    );
    let part = value::part_at(m, found.fec);
    let session = value::session_at(m, found.session);
    let parameters = value::parameters_at(m, found.parameters);
    MessageNumbers {
        answer: 0,
        typenumber: number as u32,
        id: id.0,
        kind: message::kind_number(kind) as u32,
        has: has,
        fecstart: part.start as u32,
        fecend: part.end as u32,
        label: field_number(value::field_at(m, found.label)),
        status: field_number(value::field_at(m, found.status)),
        number: ft_number(value::number_at(m, found.protection)),
        ack: ft_number(value::number_at(m, found.ack)),
        reconnect: reconnect_of(session),
        timeout: timeout_of(session),
        keepalive: keepalive_of(parameters),
        maxpdu: maxpdu_of(parameters),
        requestid: id_number(requestid),
        statusid: id_number(value::id_at(m, found.status, 4)),
        published: published_of(session),
    }
}
