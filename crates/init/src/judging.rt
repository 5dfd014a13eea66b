// How the peer's Init is judged: 22, 23, 35, 34, or the session that it begins. Nothing is changed here.
ghost use Rattle.std.specs.Prelude.{◌≡◌};
ghost use Rattle.ft_number.specs.Timeout.{lesser_of, millis_of};
ghost use Rattle.protocol.specs.Init.{both_set, peer_set, session_start, parameters_start, start_of};
ghost use Rattle.calls.specs.State.{state_of_numbers};

use block0::Header;
use calls::Answer;
use ft_number::{FtNumber, Timeout};
use message::Message;
use protocol::{Start, Terms};
use tlv::{Parameters, Session};

// The timeout agreed by both proposals, in milliseconds, whatever the form of the peer's.
fn agreed_timeout(ours: u32, peers: Timeout) -> u32
    ensures { result ≡ lesser_of ours (millis_of peers) }
{
    ft_number::lesser_timeout(ours, ft_number::milliseconds(peers))
}

// Both R set.
fn judge_both(h: Header, terms: Terms, ack: FtNumber) -> Result<Start, Answer>
    ensures { result ≡ both_set (state_of_numbers h) terms ack.0 }
{
    if h.keepalive != terms.keepalive {
        return Err(Answer::ParametersChanged);
    }
    if h.maxpdu != terms.maxpdu {
        return Err(Answer::ParametersChanged);
    }
    match ft_number::acknowledge(h.released, h.issued, ack) {
        Some(k) => Ok(Start::Resumed(terms, k, ack)),
        None => Err(Answer::AckSequenceError),
    }
}

// The peer's R set; ours is set where the state is kept.
fn judge_reconnect(h: Header, terms: Terms, ack: Option<FtNumber>) -> Result<Start, Answer>
    ensures { result ≡ peer_set (state_of_numbers h) terms ack }
{
    match ack {
        None => Err(Answer::BadInit),
        Some(a) => {
            if h.kept != 1 {
                return Ok(Start::Fresh(terms));
            }
            judge_both(h, terms, a)
        }
    }
}

// An Init with parameters.
fn judge_session(
    h: Header,
    proposed: u32,
    parameters: Parameters,
    ack: Option<FtNumber>,
    session: Option<Session>,
) -> Result<Start, Answer>
    ensures { result ≡ session_start (state_of_numbers h) proposed parameters.keepalive parameters.pdulength ack session }
{
    match session {
        None => Ok(Start::Plain),
        Some(peers) => {
            let terms = Terms {
                timeout: agreed_timeout(proposed, peers.timeout),
                keepalive: parameters.keepalive,
                maxpdu: parameters.pdulength,
            };
            if !peers.reconnect {
                return Ok(Start::Fresh(terms));
            }
            judge_reconnect(h, terms, ack)
        }
    }
}

// An Init.
fn judge_init(h: Header, proposed: u32, g: Message) -> Result<Start, Answer>
    ensures { result ≡ parameters_start (state_of_numbers h) proposed g.ack g.session g.parameters }
{
    let parameters = g.parameters.ok_or(Answer::BadInit)?;
    judge_session(h, proposed, parameters, g.ack, g.session)
}

// How the session begins with what was read, with the image's header and our proposed timeout.
pub fn judge_start(h: Header, proposed: u32, reading: Option<Message>) -> Result<Start, Answer>
    ensures { result ≡ start_of (state_of_numbers h) proposed reading }
{
    match reading {
        None => Err(Answer::MalformedReceived),
        Some(g) => {
            let t = g.typename;
            if !calls::is_init(t) {
                return Err(Answer::MalformedReceived);
            }
            judge_init(h, proposed, g)
        }
    }
}
