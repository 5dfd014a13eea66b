// FT sequence numbers and message IDs, the acknowledgement decision, the signed distance, and the reconnection timeout.
#![tactic(auto)]

ghost use Rattle.std.specs.Prelude.{◌≡◌};
ghost use Rattle.ft_number.specs.Ack.{ack_of};
ghost use Rattle.ft_number.specs.Circle.{next, after, forward, steps_of};
ghost use Rattle.ft_number.specs.Distance.{distance_of};
ghost use Rattle.ft_number.specs.Timeout.{lesser_of, millis_of, default_in, proposed_of};
ghost use Rattle.ft_number.specs.Turn.{farthest, number_turn};

// An FT sequence number: 1 to 0xFFFFFFFF, then 1 again; 0 is "none".
#[derive(Clone, Copy, PartialEq, Eq)]
pub struct FtNumber(pub u32);

// A message ID. It is another type, so that no rule on FT numbers can be handed one.
#[derive(Clone, Copy)]
pub struct MessageId(pub u32);

// Why the number of a protected message is not one that may come next: it is out of turn, or zero.
#[derive(Clone, Copy)]
pub enum TurnError {
    OutOfTurn,
    ZeroNumber,
}

// The forms of FT Session: the draft's, which counts seconds, and the published one of RFC 3479, which counts milliseconds.
#[derive(Clone, Copy)]
pub enum Form {
    Draft,
    Published,
}

// A timeout as a form of FT Session says it; 0 is for ever in both.
#[derive(Clone, Copy)]
pub enum Timeout {
    Seconds(u16),
    Milliseconds(u32),
}

// The FT reconnection timeout that the owner proposes, in the unit of the form that our Init is to have; 0 proposes to keep the state for ever.
#[derive(Clone, Copy)]
pub enum Proposal {
    Given(Timeout),
    NotGiven(Form),
}

// How many numbers the circle has.
const CIRCLE: u32 = 4294967295;

// The steps forward that are the shorter way round.
const HALF: u32 = 2147483647;

// The seconds proposed where the owner gives none.
const DEFAULT_TIMEOUT: u16 = 30;

const MILLIS_PER_SECOND: u32 = 1000;

// The number that follows n: after 0xFFFFFFFF comes 1 again, and 1 follows 0, which is no number.
pub fn successor(n: FtNumber) -> FtNumber
    ensures { result.0 ≡ next n.0 }
{
    FtNumber(n.0 % CIRCLE + 1)
}

// The k-th successor of n.
pub fn advance(n: FtNumber, k: u32) -> FtNumber
    ensures { result.0 ≡ after k n.0 }
{
    let sum = n.0 as u64 + k as u64;
    if sum == 0 {
        return FtNumber(0);
    }
    FtNumber(((sum - 1) % CIRCLE as u64 + 1) as u32)
}

// The places from a forward to b, both on the circle.
fn places(a: u32, b: u32) -> u32
    ensures { result ≡ forward a b }
{
    ((b as u64 + CIRCLE as u64 - a as u64) % CIRCLE as u64) as u32
}

// How many successors lead from one number to another, or that none do.
#[tactic(auto, using(crate::proofs::Laws::steps_none, crate::proofs::Laws::steps_never, crate::proofs::Laws::steps_on))]
pub fn steps_between(from: FtNumber, to: FtNumber) -> Option<u32>
    ensures { result ≡ steps_of from.0 to.0 }
{
    match (from.0, to.0) {
        (0, b) => Some(b),
        (_, 0) => None,
        (a, b) => Some(places(a, b)),
    }
}

// How many held messages an acknowledgement releases, or that it names none of them: a sequence error.
#[tactic(auto, using(crate::proofs::Laws::releases, crate::proofs::Laws::past, crate::proofs::Laws::none_issued, crate::proofs::Laws::unreachable))]
pub fn acknowledge(released: FtNumber, issued: FtNumber, ack: FtNumber) -> Option<u32>
    ensures { result ≡ ack_of released.0 issued.0 ack.0 }
{
    let k = steps_between(released, ack)?;
    let n = steps_between(released, issued)?;
    if k <= n { Some(k) } else { None }
}

// How many steps ahead of the last number secured the next one may be.
fn steps_allowed(resumed: bool) -> u32
    ensures { result ≡ farthest resumed }
{
    if resumed { 64 } else { 1 }
}

// Whether a number is the next after the last one secured, and how many were left out before it.
#[tactic(auto, using(crate::proofs::Turns::turn_never, crate::proofs::Turns::turn_same, crate::proofs::Turns::turn_far, crate::proofs::Turns::turn_in))]
pub fn judge_turn(secured: FtNumber, number: FtNumber, resumed: bool) -> Result<u32, TurnError>
    ensures { result ≡ number_turn resumed secured.0 number.0 }
{
    if number.0 == 0 {
        return Err(TurnError::ZeroNumber);
    }
    let Some(k) = steps_between(secured, number) else {
        return Err(TurnError::OutOfTurn);
    };
    if k == 0 || steps_allowed(resumed) < k {
        return Err(TurnError::OutOfTurn);
    }
    Ok(k - 1)
}

// The signed distance between two numbers, the shorter way round; refused with a zero.
pub fn signed_distance(from: FtNumber, to: FtNumber) -> Option<i32>
    ensures { result ≡ distance_of from.0 to.0 }
{
    let a = from.0;
    let b = to.0;
    if a == 0 || b == 0 {
        return None;
    }
    let d = places(a, b);
    if d <= HALF {
        Some(d as i32)
    } else {
        Some(-((CIRCLE - d) as i32))
    }
}

// The lesser of two timeouts in one unit, zero counting as infinite.
pub fn lesser_timeout(a: u32, b: u32) -> u32
    ensures { result ≡ lesser_of a b }
{
    if a == 0 {
        return b;
    }
    if b == 0 {
        return a;
    }
    a.min(b)
}

// A timeout in milliseconds; 0 stays 0, for ever.
pub fn milliseconds(t: Timeout) -> u32
    ensures { result ≡ millis_of t }
{
    match t {
        Timeout::Seconds(s) => s as u32 * MILLIS_PER_SECOND,
        Timeout::Milliseconds(n) => n,
    }
}

// 30 seconds in the unit of a form.
fn default_timeout(form: Form) -> Timeout
    ensures { result ≡ default_in form }
{
    match form {
        Form::Draft => Timeout::Seconds(DEFAULT_TIMEOUT),
        Form::Published => Timeout::Milliseconds(DEFAULT_TIMEOUT as u32 * MILLIS_PER_SECOND),
    }
}

// The timeout that our Init proposes: the owner's, 0 included, and 30 seconds where none is given.
pub fn proposed_timeout(p: Proposal) -> Timeout
    ensures { result ≡ proposed_of p }
{
    match p {
        Proposal::Given(t) => t,
        Proposal::NotGiven(form) => default_timeout(form),
    }
}
