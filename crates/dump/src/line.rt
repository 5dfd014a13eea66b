// The line of one message.
ghost use Rattle.std.specs.Prelude.{◌+◌, ◌-◌, ◌*◌, ◌≤◌, ◌≡◌, length};
ghost use Rattle.text.specs.Text.{Put};
ghost use Rattle.message.specs.Reading.{reading_of};
ghost use Rattle.dump.specs.Fields.{value_of, binding_text, state_text, ft_texts, fields_text, PartsWithin};
ghost use Rattle.dump.specs.Line.{head_text, reading_text, line_of, line_room};

use message::Message;
use tlv::Part;

// The number of the PDU, that of the message in it, the type and the message ID.
fn put_head(out: &mut [u8], at: usize, number: u64, k: u64, m: &[u8]) -> usize
    requires { (8 ≤ length m.now) × (at + 70 ≤ length out.old) }
    ensures put { Put out.old at (head_text number k m.now) out.new result }
    ensures upper_bound { result ≤ at + 70 }
{
    let kind = message::number_in(m);
    let id = message::id_in(m);
    let end = text::put_decimal(out, at, number);
    let end = dump_fields::put_number(out, end, b" ", k);
    let end = dump_fields::put_type(out, end, kind);
    dump_fields::put_number(out, end, b" ", id.0 as u64)
}

// The bytes of a part of the message.
fn value_of(m: &[u8], p: Part) -> &[u8]
    requires { (p.start ≤ p.end) × (p.end ≤ length m.now) }
    ensures { (result.now ≡ value_of m.now p) × (length result.now ≡ p.end - p.start) }
{
    let start = p.start;
    let end = p.end;
    &m[start..end]
}

// FEC and label.
fn put_binding(out: &mut [u8], at: usize, m: &[u8], g: Message) -> usize
    requires { PartsWithin m.now g × (at + (2 * length m.now + 33) ≤ length out.old) }
    ensures put { Put out.old at (binding_text m.now g) out.new result }
    ensures upper_bound { result ≤ at + (2 * length m.now + 33) }
{
    let fec = g.fec;
    let label = g.label;
    let value = value_of(m, g.fecvalue);
    let end = dump_fields::put_fec(out, at, fec, value);
    dump_fields::put_label(out, end, label)
}

// Status and session parameters.
fn put_state(out: &mut [u8], at: usize, m: &[u8], g: Message) -> usize
    requires { PartsWithin m.now g × (at + 56 ≤ length out.old) }
    ensures put { Put out.old at (state_text m.now g) out.new result }
    ensures upper_bound { result ≤ at + 56 }
{
    let status = g.status;
    let parameters = g.parameters;
    let value = value_of(m, g.parametersvalue);
    let end = dump_fields::put_status(out, at, status);
    dump_fields::put_parameters(out, end, parameters, value)
}

// The FT TLVs.
fn put_ft(out: &mut [u8], at: usize, g: Message) -> usize
    requires { at + 119 ≤ length out.old }
    ensures put { Put out.old at (ft_texts g) out.new result }
    ensures upper_bound { result ≤ at + 119 }
{
    let session = g.session;
    let protection = g.protection;
    let ack = g.ack;
    let end = dump_fields::put_session(out, at, session);
    let end = dump_fields::put_ft_number(out, end, b" ft-protection ", protection);
    dump_fields::put_ft_number(out, end, b" ft-ack ", ack)
}

// Each listed TLV that stands in the message.
fn put_fields(out: &mut [u8], at: usize, m: &[u8], g: Message) -> usize
    requires { PartsWithin m.now g × (at + (2 * length m.now + 240) ≤ length out.old) }
    ensures put { Put out.old at (fields_text m.now g) out.new result }
    ensures upper_bound { result ≤ at + (2 * length m.now + 240) }
{
    let end = put_binding(out, at, m, g);
    let end = put_state(out, end, m, g);
    let end = put_ft(out, end, g);
    let requestid = g.requestid;
    dump_fields::put_request_id(out, end, requestid)
}

// What was read of the message: its TLVs, or that it is malformed.
fn put_reading(out: &mut [u8], at: usize, m: &[u8]) -> usize
    requires { at + (2 * length m.now + 240) ≤ length out.old }
    ensures put { Put out.old at (reading_text m.now (reading_of m.now)) out.new result }
    ensures upper_bound { result ≤ at + (2 * length m.now + 240) }
{
    match message::read_message(m) {
        None => text::put_text(out, at, b" malformed"),
        Some(g) => put_fields(out, at, m, g),
    }
}

// The line of the message m, the k-th of the PDU with the number: both numbers, its type, its ID and the listed TLVs in their order, or
// that it is malformed, and a newline.
pub fn put_line(out: &mut [u8], at: usize, number: u64, k: u64, m: &[u8]) -> usize
    requires { (8 ≤ length m.now) × (at + line_room (length m.now) ≤ length out.old) }
    ensures put { Put out.old at (line_of number k m.now) out.new result }
    ensures upper_bound { result ≤ at + line_room (length m.now) }
{
    let end = put_head(out, at, number, k, m);
    let end = put_reading(out, end, m);
    text::put_text(out, end, b"\n")
}
