// FT numbers and timeouts.
ghost use Rattle.std.specs.Prelude.{◌≡◌};
ghost use Rattle.ft_number.specs.Circle.{next};
ghost use Rattle.ft_number.specs.Distance.{distance_of};
ghost use Rattle.ft_number.specs.Timeout.{lesser_of};
ghost use Rattle.ft_number.specs.Turn.{number_turn};
ghost use Rattle.message_numbers.specs.Numbers.{distance_numbers, next_numbers};

use crate::{DistanceNumbers, NextNumbers};
use ft_number::{FtNumber, TurnError};

// The shorter way from one number to another; 2 and 0 where one is zero.
pub fn distance(from: u32, to: u32) -> DistanceNumbers
    ensures { result ≡ distance_numbers (distance_of from to) }
{
    match ft_number::signed_distance(FtNumber(from), FtNumber(to)) {
        Some(n) => DistanceNumbers {
            answer: 0,
            steps: n,
        },
        None => DistanceNumbers {
            answer: 2,
            steps: 0,
        },
    }
}

// The number that follows.
pub fn successor(number: u32) -> u32
    ensures { result ≡ next number }
{
    let n = ft_number::successor(FtNumber(number));
    n.0
}

// Whether a number is the next after the last one secured: 0 and how many were left out before it, 20 where it is out of turn, 30 where it is zero.
pub fn next_number(secured: u32, number: u32, resumed: bool) -> NextNumbers
    ensures { result ≡ next_numbers (number_turn resumed secured number) }
{
    match ft_number::judge_turn(FtNumber(secured), FtNumber(number), resumed) {
        Ok(k) => NextNumbers {
            answer: 0,
            leftout: k,
        },
        Err(TurnError::OutOfTurn) => NextNumbers {
            answer: 20,
            leftout: 0,
        },
        Err(TurnError::ZeroNumber) => NextNumbers {
            answer: 30,
            leftout: 0,
        },
    }
}

// The lesser of two timeouts, zero counting as infinite.
pub fn lesser_timeout(a: u32, b: u32) -> u32
    ensures { result ≡ lesser_of a b }
{
    ft_number::lesser_timeout(a, b)
}
