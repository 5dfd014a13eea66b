// One LDP message: its type, its message ID and what its TLVs say, or that it is malformed; and whether it may be submitted.
#![tactic(auto)]

ghost use Rattle.std.specs.Prelude.{◌≤◌, ◌≡◌, length};
ghost use Rattle.tlv.specs.Value.{Places};
ghost use Rattle.tlv.specs.Walk.{head_size};
ghost use Rattle.message.specs.Kinds.{fatal_of, status_code, notification_kind, abort_kind, kind_for, kind_of, kind_number};
ghost use Rattle.message.specs.Reading.{type_of, number_in, id_in, bears_of, places_of, message_of, reading_of};
ghost use Rattle.message.specs.Submission.{bears_ft, submission_of, entry_in};

use ft_number::{FtNumber, MessageId};
pub use tlv::{Fec, Found, Parameters, Part, Session};
use tlv::{element, value, walk};

// The message types; Other is every number that has no name here.
#[derive(Clone, Copy)]
pub enum MessageType {
    Notification,
    Initialization,
    KeepAlive,
    Address,
    AddressWithdraw,
    Mapping,
    Request,
    Withdraw,
    Release,
    Abort,
    Other,
}

// A well-formed message.
#[derive(Clone, Copy)]
pub struct Message {
    pub typename: MessageType,
    pub typenumber: u16,
    pub id: MessageId,
    pub found: Found,
    pub fec: Option<Fec>,
    pub fecvalue: Part,
    pub label: Option<u32>,
    pub status: Option<u32>,
    pub parameters: Option<Parameters>,
    pub parametersvalue: Part,
    pub session: Option<Session>,
    pub protection: Option<FtNumber>,
    pub ack: Option<FtNumber>,
    pub requestid: Option<MessageId>,
    pub statusid: Option<MessageId>,
}

// The kinds of message that are stored and protected; NoKind is every other message. A Request bears its own message ID, an Abort the one that it names.
#[derive(Clone, Copy)]
pub enum Kind {
    Mapping,
    Withdraw,
    Release,
    Address,
    AddressWithdraw,
    ResourcesAvailable,
    Request(MessageId),
    Abort(MessageId),
    NoResources,
    NoKind,
}

// Why a message may not be submitted: it is malformed (4), or refused (5).
#[derive(Clone, Copy)]
pub enum SubmissionError {
    Malformed,
    Refused,
}

// The message type of a number, U masked off.
pub fn type_of(number: u16) -> MessageType
    ensures { result ≡ type_of number }
{
    match number {
        0x0001 => MessageType::Notification,
        0x0200 => MessageType::Initialization,
        0x0201 => MessageType::KeepAlive,
        0x0300 => MessageType::Address,
        0x0301 => MessageType::AddressWithdraw,
        0x0400 => MessageType::Mapping,
        0x0401 => MessageType::Request,
        0x0402 => MessageType::Withdraw,
        0x0403 => MessageType::Release,
        0x0404 => MessageType::Abort,
        _ => MessageType::Other,
    }
}

// The type number of a message, U masked off. Of any message with a head, malformed ones too.
pub fn number_in(m: &[u8]) -> u16
    requires { head_size ≤ length m.now }
    ensures { result ≡ number_in m.now }
{
    octets::get_u16(m, 0) % 32768
}

// The message ID of a message. Of any message with a head, malformed ones too.
pub fn id_in(m: &[u8]) -> MessageId
    requires { head_size ≤ length m.now }
    ensures { result ≡ id_in m.now }
{
    MessageId(octets::get_u32(m, 4))
}

// The TLVs that a message of the type must bear are there.
fn bears(t: MessageType, found: Found) -> bool
    ensures { result ≡ bears_of t found }
{
    match t {
        MessageType::Notification => true,
        MessageType::Initialization => true,
        MessageType::KeepAlive => true,
        MessageType::Address => true,
        MessageType::AddressWithdraw => true,
        MessageType::Mapping => found.fec != 0 && found.label != 0,
        MessageType::Request => found.fec != 0,
        MessageType::Withdraw => found.fec != 0,
        MessageType::Release => found.fec != 0,
        MessageType::Abort => found.fec != 0 && found.requestid != 0,
        MessageType::Other => true,
    }
}

fn message_at(m: &[u8], found: Found) -> Message
    requires { Places m.now found }
    ensures { result ≡ message_of m.now found }
{
    let number = number_in(m);
    Message {
        typename: type_of(number),
        typenumber: number,
        found: found,
        fec: value::fec_at(m, found.fec),
        fecvalue: value::part_at(m, found.fec),
        label: value::field_at(m, found.label),
        status: value::field_at(m, found.status),
        parameters: value::parameters_at(m, found.parameters),
        parametersvalue: value::part_at(m, found.parameters),
        session: value::session_at(m, found.session),
        protection: value::number_at(m, found.protection),
        ack: value::number_at(m, found.ack),
        requestid: value::id_at(m, found.requestid, 0),
        statusid: value::id_at(m, found.status, 4),
        id: id_in(m),
    }
}

// Where the TLVs of a message stand, or that it is malformed: what `read_message` says, without the values.
pub fn places_in(m: &[u8]) -> Option<Found>
    ensures { result ≡ places_of m.now }
{
    match walk::walk_message(m) {
        None => None,
        Some(found) => {
            if !bears(type_of(number_in(m)), found) {
                return None;
            }
            Some(found)
        }
    }
}

// Reads one message: type, type number without U, message ID, and what each listed TLV says. Malformed is what the walk refuses, a
// Mapping without FEC or label, a Withdraw, a Release or a Request without FEC, and an Abort without FEC or the ID of its Request.
pub fn read_message(m: &[u8]) -> Option<Message>
    ensures { result ≡ reading_of m.now }
{
    match places_in(m) {
        None => None,
        Some(found) => Some(message_at(m, found)),
    }
}

// The E bit of a Status.
pub fn is_fatal(status: u32) -> bool
    ensures { result ≡ fatal_of status }
{
    2147483648 <= status
}

// The code of a Status: its low 30 bits.
pub fn status_code(status: u32) -> u32
    ensures { result ≡ status_code status }
{
    status % 1073741824
}

fn notification_kind(status: Option<u32>) -> Kind
    ensures { result ≡ notification_kind status }
{
    match status {
        None => Kind::NoKind,
        Some(v) => {
            if is_fatal(v) {
                return Kind::NoKind;
            }
            match status_code(v) {
                0x0000000F => Kind::ResourcesAvailable,
                0x0000000E => Kind::NoResources,
                _ => Kind::NoKind,
            }
        }
    }
}

fn abort_kind(requestid: Option<MessageId>) -> Kind
    ensures { result ≡ abort_kind requestid }
{
    match requestid {
        None => Kind::NoKind,
        Some(id) => Kind::Abort(id),
    }
}

// The kind of a message of that type, status and message ID, which names that Request.
pub fn kind_for(
    t: MessageType,
    status: Option<u32>,
    id: MessageId,
    requestid: Option<MessageId>,
) -> Kind
    ensures { result ≡ kind_for t status id requestid }
{
    match t {
        MessageType::Notification => notification_kind(status),
        MessageType::Initialization => Kind::NoKind,
        MessageType::KeepAlive => Kind::NoKind,
        MessageType::Address => Kind::Address,
        MessageType::AddressWithdraw => Kind::AddressWithdraw,
        MessageType::Mapping => Kind::Mapping,
        MessageType::Request => Kind::Request(id),
        MessageType::Withdraw => Kind::Withdraw,
        MessageType::Release => Kind::Release,
        MessageType::Abort => abort_kind(requestid),
        MessageType::Other => Kind::NoKind,
    }
}

// The kind of a message.
pub fn kind_of(g: Message) -> Kind
    ensures { result ≡ kind_of g }
{
    let t = g.typename;
    let status = g.status;
    let id = g.id;
    let requestid = g.requestid;
    kind_for(t, status, id, requestid)
}

// The kind's number in the stored image; 0 for no kind.
pub fn kind_number(kind: Kind) -> u8
    ensures { result ≡ kind_number kind }
{
    match kind {
        Kind::Mapping => 1,
        Kind::Withdraw => 2,
        Kind::Release => 3,
        Kind::Address => 4,
        Kind::AddressWithdraw => 5,
        Kind::ResourcesAvailable => 6,
        Kind::Request(_) => 7,
        Kind::Abort(_) => 8,
        Kind::NoResources => 9,
        Kind::NoKind => 0,
    }
}

// Whether FT Session, FT Protection or FT ACK stands among the places found.
pub fn bears_ft(found: Found) -> bool
    ensures { result ≡ bears_ft found }
{
    if found.session != 0 {
        return true;
    }
    if found.protection != 0 {
        return true;
    }
    found.ack != 0
}

// Submit's answers 4 (malformed) and 5 (no kind 1 to 9, an FT TLV, or kinds 1 to 3 without a label), else its kind and label, 0xFFFFFFFF for
// kinds 4 to 9. Of what the message says only its type, its status, its label and the IDs are read. Its length is Submit's own test (3).
pub fn judge_submission(m: &[u8]) -> Result<(Kind, u32), SubmissionError>
    ensures { result ≡ submission_of m.now }
{
    match walk::walk_message(m) {
        None => Err(SubmissionError::Malformed),
        Some(found) => {
            let status = value::field_at(m, found.status);
            let t = type_of(number_in(m));
            if !bears(t, found) {
                return Err(SubmissionError::Malformed);
            }
            let requestid = value::id_at(m, found.requestid, 0);
            let kind = kind_for(t, status, id_in(m), requestid);
            if bears_ft(found) {
                return Err(SubmissionError::Refused);
            }
            let number = kind_number(kind);
            if number == 0 {
                return Err(SubmissionError::Refused);
            }
            if 3 < number {
                return Ok((kind, 0xFFFFFFFF));
            }
            let label = found.label;
            if label == 0 {
                return Err(SubmissionError::Refused);
            }
            Ok((kind, octets::get_u32(m, label + 4)))
        }
    }
}

// The entry of a message's FEC: of the message's values that one alone is read. 0 for one that is malformed.
pub fn entry_in(m: &[u8]) -> u64
    ensures { result ≡ entry_in m.now }
{
    match places_in(m) {
        None => 0,
        Some(found) => element::entry_by(value::fec_at(m, found.fec)),
    }
}
