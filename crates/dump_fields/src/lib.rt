// One TLV as a field of a line of ldp_dump's text: each function puts it from `at` on and answers where it ends.
// Each asks for the room that its field may need, and puts nothing for a TLV that does not stand; only `dump` calls them.
#![tactic(auto)]

ghost use Rattle.std.specs.Prelude.{◌+◌, ◌*◌, ◌≤◌, ◌++◌, ◌≡◌, length};
ghost use Rattle.text.specs.Text.{decimal, Put};
ghost use Rattle.dump_fields.specs.Field.{bytes_text, type_text, fec_text, label_text, status_text, parameters_text, bit, reconnect_text, timeout_text, session_text, ft_text, request_id_text};

use ft_number::{FtNumber, MessageId, Timeout};
use tlv::{Fec, Parameters, Session};

// A name and then bytes in hexadecimal; `-` where there is none.
pub fn put_bytes(out: &mut [u8], at: usize, name: &[u8], value: &[u8]) -> usize
    requires { at + length name.now + (2 * length value.now + 1) ≤ length out.old }
    ensures put { Put out.old at (name.now ++ bytes_text value.now) out.new result }
    ensures upper_bound { result ≤ at + length name.now + (2 * length value.now + 1) }
{
    let after = text::put_text(out, at, name);
    if value.len() == 0 {
        return text::put_text(out, after, b"-");
    }
    text::put_hex(out, after, value)
}

// A name and then a number in decimal.
pub fn put_number(out: &mut [u8], at: usize, name: &[u8], n: u64) -> usize
    requires { at + length name.now + 20 ≤ length out.old }
    ensures put { Put out.old at (name.now ++ decimal n) out.new result }
    ensures upper_bound { result ≤ at + length name.now + 20 }
{
    let after = text::put_text(out, at, name);
    text::put_decimal(out, after, n)
}

// A message's type number.
pub fn put_type(out: &mut [u8], at: usize, number: u16) -> usize
    requires { at + 8 ≤ length out.old }
    ensures put { Put out.old at (type_text number) out.new result }
    ensures upper_bound { result ≤ at + 8 }
{
    let mut code = [0u8; 2];
    octets::put_u16(&mut code, 0, number);
    put_bytes(out, at, b" 0x", &code)
}

// The FEC's value.
pub fn put_fec(out: &mut [u8], at: usize, fec: Option<Fec>, value: &[u8]) -> usize
    requires { at + (2 * length value.now + 6) ≤ length out.old }
    ensures put { Put out.old at (fec_text fec value.now) out.new result }
    ensures upper_bound { result ≤ at + (2 * length value.now + 6) }
{
    match fec {
        None => at,
        Some(_) => put_bytes(out, at, b" fec ", value),
    }
}

// The label.
pub fn put_label(out: &mut [u8], at: usize, label: Option<u32>) -> usize
    requires { at + 27 ≤ length out.old }
    ensures put { Put out.old at (label_text label) out.new result }
    ensures upper_bound { result ≤ at + 27 }
{
    match label {
        None => at,
        Some(n) => put_number(out, at, b" label ", n as u64),
    }
}

// The status code, its E and F bits too.
pub fn put_status(out: &mut [u8], at: usize, status: Option<u32>) -> usize
    requires { at + 19 ≤ length out.old }
    ensures put { Put out.old at (status_text status) out.new result }
    ensures upper_bound { result ≤ at + 19 }
{
    match status {
        None => at,
        Some(n) => {
            let mut code = [0u8; 4];
            octets::put_u32(&mut code, 0, n);
            put_bytes(out, at, b" status 0x", &code)
        }
    }
}

// The session parameters' value.
pub fn put_parameters(
    out: &mut [u8],
    at: usize,
    parameters: Option<Parameters>,
    value: &[u8],
) -> usize
    requires { at + (2 * length value.now + 9) ≤ length out.old }
    ensures put { Put out.old at (parameters_text parameters value.now) out.new result }
    ensures upper_bound { result ≤ at + (2 * length value.now + 9) }
{
    match parameters {
        None => at,
        Some(_) => put_bytes(out, at, b" params ", value),
    }
}

fn bit_of(b: bool) -> u64
    ensures { result ≡ bit b }
{
    if b { 1 } else { 0 }
}

// A name, the R bit and a number.
fn put_reconnect(out: &mut [u8], at: usize, name: &[u8], reconnect: bool, n: u64) -> usize
    requires { at + length name.now + 41 ≤ length out.old }
    ensures put { Put out.old at (reconnect_text name.now reconnect n) out.new result }
    ensures upper_bound { result ≤ at + length name.now + 41 }
{
    let after = put_number(out, at, name, bit_of(reconnect));
    put_number(out, after, b" ", n)
}

// The R bit and the timeout, under the name of the timeout's form.
fn put_timeout(out: &mut [u8], at: usize, reconnect: bool, timeout: Timeout) -> usize
    requires { at + 56 ≤ length out.old }
    ensures put { Put out.old at (timeout_text reconnect timeout) out.new result }
    ensures upper_bound { result ≤ at + 56 }
{
    match timeout {
        Timeout::Seconds(s) => put_reconnect(out, at, b" ft-session ", reconnect, s as u64),
        Timeout::Milliseconds(n) => put_reconnect(out, at, b" ft-session-ms ", reconnect, n as u64),
    }
}

// The R bit and the timeout of FT Session.
pub fn put_session(out: &mut [u8], at: usize, session: Option<Session>) -> usize
    requires { at + 56 ≤ length out.old }
    ensures put { Put out.old at (session_text session) out.new result }
    ensures upper_bound { result ≤ at + 56 }
{
    match session {
        None => at,
        Some(s) => put_timeout(out, at, s.reconnect, s.timeout),
    }
}

// The number of FT Protection or of FT ACK, under its name.
pub fn put_ft_number(out: &mut [u8], at: usize, name: &[u8], field: Option<FtNumber>) -> usize
    requires { at + length name.now + 20 ≤ length out.old }
    ensures put { Put out.old at (ft_text name.now field) out.new result }
    ensures upper_bound { result ≤ at + length name.now + 20 }
{
    match field {
        None => at,
        Some(n) => put_number(out, at, name, n.0 as u64),
    }
}

// The ID of the Request that the message names.
pub fn put_request_id(out: &mut [u8], at: usize, requestid: Option<MessageId>) -> usize
    requires { at + 32 ≤ length out.old }
    ensures put { Put out.old at (request_id_text requestid) out.new result }
    ensures upper_bound { result ≤ at + 32 }
{
    match requestid {
        None => at,
        Some(id) => put_number(out, at, b" request-id ", id.0 as u64),
    }
}
