// What a received message is asked, one question a function.
ghost use Rattle.std.specs.Prelude.{◌≡◌};
ghost use Rattle.ft_number.specs.Turn.{turn_gap};
ghost use Rattle.protocol.specs.Acked.{ack_borne};
ghost use Rattle.protocol.specs.Labels.{is_protected};
ghost use Rattle.protocol.specs.Receive.{is_fatal, is_zero, turn_borne};
ghost use Rattle.calls.specs.State.{state_of_numbers};

use block0::Header;
use ft_number::{FtNumber, TurnError};

// Whether its Status has E set.
pub fn is_fatal(status: Option<u32>) -> bool
    ensures { result ≡ is_fatal status }
{
    match status {
        None => false,
        Some(v) => message::is_fatal(v),
    }
}

// Whether it bears FT Protection.
pub fn is_protected(n: Option<FtNumber>) -> bool
    ensures { result ≡ is_protected n }
{
    match n {
        None => false,
        Some(_) => true,
    }
}

// Whether its FT Protection is the number zero.
pub fn is_zero(n: Option<FtNumber>) -> bool
    ensures { result ≡ is_zero n }
{
    match n {
        None => false,
        Some(m) => m.0 == 0,
    }
}

// The turn of its number, after the last one secured; without FT Protection it is always in turn.
pub fn turn_borne(secured: FtNumber, n: Option<FtNumber>, resumed: bool) -> Result<u32, TurnError>
    ensures { result ≡ turn_borne resumed secured.0 n }
{
    match n {
        None => Ok(0),
        Some(m) => ft_number::judge_turn(secured, m, resumed),
    }
}

// How many were left out before it.
pub fn turn_gap(turn: Result<u32, TurnError>) -> u32
    ensures { result ≡ turn_gap turn }
{
    match turn {
        Ok(k) => k,
        Err(TurnError::OutOfTurn) => 0,
        Err(TurnError::ZeroNumber) => 0,
    }
}

// The number that it acknowledges.
pub fn ack_borne(h: Header, ack: Option<FtNumber>) -> FtNumber
    ensures { result.0 ≡ ack_borne (state_of_numbers h) ack }
{
    match ack {
        None => h.released,
        Some(n) => n,
    }
}
