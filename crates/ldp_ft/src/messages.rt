// PDUs, messages, FT numbers and timeouts.
ghost use Rattle.std.specs.Prelude.{◌≡◌};
ghost use Rattle.ft_number.specs.Circle.{next};
ghost use Rattle.ft_number.specs.Distance.{distance_of};
ghost use Rattle.ft_number.specs.Timeout.{lesser_of};
ghost use Rattle.ft_number.specs.Turn.{number_turn};
ghost use Rattle.pdu.specs.Pdu.{message_place, opened_of};
ghost use Rattle.message.specs.Reading.{reading_of};
ghost use Rattle.message_numbers.specs.Numbers.{distance_numbers, next_numbers};
ghost use Rattle.message_numbers.specs.Reading.{pdu_numbers, part_numbers, message_numbers};

use message_numbers::{DistanceNumbers, MessageNumbers, NextNumbers, PartNumbers, PduNumbers};

#[unsafe(no_mangle)]
pub extern "C" fn ldp_ft_pdu_open(pdu: &[u8]) -> PduNumbers
    ensures { result ≡ pdu_numbers (opened_of pdu.now) }
{
    message_numbers::pdu_open(pdu)
}

#[unsafe(no_mangle)]
pub extern "C" fn ldp_ft_pdu_message(pdu: &[u8], at: usize) -> PartNumbers
    ensures { result ≡ part_numbers (message_place pdu.now at) }
{
    message_numbers::pdu_message(pdu, at)
}

#[unsafe(no_mangle)]
pub extern "C" fn ldp_ft_message_read(msg: &[u8]) -> MessageNumbers
    ensures { result ≡ message_numbers (reading_of msg.now) }
{
    message_numbers::message_read(msg)
}

#[unsafe(no_mangle)]
pub extern "C" fn ldp_ft_distance(from: u32, to: u32) -> DistanceNumbers
    ensures { result ≡ distance_numbers (distance_of from to) }
{
    message_numbers::distance(from, to)
}

#[unsafe(no_mangle)]
pub extern "C" fn ldp_ft_successor(number: u32) -> u32
    ensures { result ≡ next number }
{
    message_numbers::successor(number)
}

#[unsafe(no_mangle)]
pub extern "C" fn ldp_ft_next_number(secured: u32, number: u32, resumed: bool) -> NextNumbers
    ensures { result ≡ next_numbers (number_turn resumed secured number) }
{
    message_numbers::next_number(secured, number, resumed)
}

#[unsafe(no_mangle)]
pub extern "C" fn ldp_ft_lesser_timeout(a: u32, b: u32) -> u32
    ensures { result ≡ lesser_of a b }
{
    message_numbers::lesser_timeout(a, b)
}
