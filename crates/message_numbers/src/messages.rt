// PDUs and messages, read.
ghost use Rattle.std.specs.Prelude.{◌≤◌, ◌≡◌};
ghost use Rattle.pdu.specs.Pdu.{message_place, opened_of};
ghost use Rattle.message.specs.Reading.{reading_of};
ghost use Rattle.message_numbers.specs.Reading.{pdu_numbers, part_of, part_numbers, message_numbers};

use crate::fields::{no_message, whole_message};
use crate::{MessageNumbers, PartNumbers, PduNumbers};

// A whole PDU, judged: 0 and the count of its messages, or 4 and 0.
pub fn pdu_open(pdu: &[u8]) -> PduNumbers
    ensures { result ≡ pdu_numbers (opened_of pdu.now) }
{
    match pdu::open_pdu(pdu) {
        Some(count) => PduNumbers {
            answer: 0,
            count: count,
        },
        None => PduNumbers {
            answer: 4,
            count: 0,
        },
    }
}

// A place that 32 bits can name.
fn part_numbers(start: usize, end: usize) -> PartNumbers
    requires { start ≤ end }
    ensures { result ≡ part_of start end }
{
    if 4294967295 < end {
        return PartNumbers {
            answer: 4,
            start: 0,
            end: 0,
        };
    }
    PartNumbers {
        answer: 0,
        start: start as u32,
        end: end as u32,
    }
}

// Where the message lies that starts at `at`: 0 and its place, or 4 and zeros; 4 too where 32 bits do not name its end.
pub fn pdu_message(pdu: &[u8], at: usize) -> PartNumbers
    ensures { result ≡ part_numbers (message_place pdu.now at) }
{
    match pdu::message_at(pdu, at) {
        Some(place) => part_numbers(place.start, place.end),
        None => PartNumbers {
            answer: 4,
            start: 0,
            end: 0,
        },
    }
}

// A message, read: each field, 0 where it is not borne; 22 and zeros where malformed.
pub fn message_read(msg: &[u8]) -> MessageNumbers
    ensures { result ≡ message_numbers (reading_of msg.now) }
{
    match message::places_in(msg) {
        None => no_message(),
        Some(found) => whole_message(msg, found),
    }
}
