// Byte 23 of block 0: whether the peer has told us to stop Requests (2), and whether we have told the peer (4).
ghost use Rattle.std.specs.Prelude.{◌≡◌};
ghost use Rattle.protocol.specs.Accepting.{stop_after};
ghost use Rattle.calls.specs.State.{marks_of};
ghost use Rattle.calls.specs.Storing.{marks_byte};

use message::Kind;

const TOLD: u8 = 2;

const TELLING: u8 = 4;

// Whether Requests are stopped after a message of that kind: kind 9 stops them, kind 6 lets them go on.
fn stop_after(stop: bool, kind: Kind) -> bool
    ensures { result ≡ stop_after stop kind }
{
    match kind {
        Kind::Mapping => stop,
        Kind::Withdraw => stop,
        Kind::Release => stop,
        Kind::Address => stop,
        Kind::AddressWithdraw => stop,
        Kind::ResourcesAvailable => false,
        Kind::Request(_) => stop,
        Kind::Abort(_) => stop,
        Kind::NoResources => true,
        Kind::NoKind => stop,
    }
}

// The byte of both.
fn marks_byte(stopped: bool, stopping: bool) -> u8
    ensures { result ≡ marks_byte (record { stopped = stopped; stopping = stopping }) }
{
    if stopped {
        if stopping {
            return TOLD + TELLING;
        }
        return TOLD;
    }
    if stopping {
        return TELLING;
    }
    0
}

// Whether the peer has told us to stop Requests.
pub fn requests_stopped(marks: u8) -> bool
    ensures { result ≡ (marks_of marks).stopped }
{
    marks / TOLD % 2 == 1
}

// Whether we have told the peer so.
fn requests_refused(marks: u8) -> bool
    ensures { result ≡ (marks_of marks).stopping }
{
    marks / TELLING % 2 == 1
}

// The byte after a message of ours of that kind is accepted.
pub fn marks_accepted(marks: u8, kind: Kind) -> u8
    ensures { result ≡ marks_byte (record { stopped = (marks_of marks).stopped; stopping = stop_after (marks_of marks).stopping kind }) }
{
    marks_byte(
        requests_stopped(marks),
        stop_after(requests_refused(marks), kind),
    )
}

// The byte after a message of the peer's of that kind is taken.
pub fn marks_heard(marks: u8, kind: Kind) -> u8
    ensures { result ≡ marks_byte (record { stopped = stop_after (marks_of marks).stopped kind; stopping = (marks_of marks).stopping }) }
{
    marks_byte(
        stop_after(requests_stopped(marks), kind),
        requests_refused(marks),
    )
}
