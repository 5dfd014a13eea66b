// The session that the peer's Init begins: released, fresh, or resumed.
ghost use Rattle.std.specs.Prelude.{◌≤◌, [], ◌≡◌, Ok};
ghost use Rattle.octets.specs.Differ.{differ};
ghost use Rattle.image.specs.Sizes.{block};
ghost use Rattle.image.specs.State.{decode};
ghost use Rattle.image.specs.Verdict.{IsSound};
ghost use Rattle.protocol.specs.Init.{fresh, resumed, begun_phase, start_state};
ghost use Rattle.protocol.specs.Phases.{awaits, proposal_of, up_with};
ghost use Rattle.protocol.specs.State.{released_state};
ghost use Rattle.calls.specs.Outcomes.{after_with};
ghost use Rattle.calls.specs.State.{state_of};
ghost use Rattle.calls.specs.Storing.{same, empty, fewer, stored};
ghost use Rattle.init.specs.Fitting.{StartFits};
ghost use Rattle.init.specs.Received.{start_slots, begun_on, init_received_of};

use crate::judging::judge_start;
use block0::Header;
use calls::{Answer, Outcome, Phase, Progress};
use ft_number::FtNumber;
use protocol::{Start, Terms};

// Whether the peer's Init is awaited.
fn awaits_init(phase: Phase) -> bool
    ensures { result ≡ awaits phase }
{
    match phase {
        Phase::Idle => false,
        Phase::InitWait(_) => true,
        Phase::UpFT(_) => false,
        Phase::UpPlain => false,
        Phase::Failed => false,
    }
}

// Our proposed timeout: InitWait alone bears one.
fn proposal_of(phase: Phase) -> u32
    ensures { result ≡ proposal_of phase }
{
    match phase {
        Phase::Idle => 0,
        Phase::InitWait(v) => v.timeout,
        Phase::UpFT(_) => 0,
        Phase::UpPlain => 0,
        Phase::Failed => 0,
    }
}

// A fresh session: kept 1, the terms, and nothing else. The IDs in block 65 stay: without a Request's word none counts. Whether block 0 changed.
fn store_fresh(image: &mut [u8], terms: Terms) -> bool
    requires { IsSound image.old }
    ensures { (image.new ≡ stored image.old empty same (fresh terms)) × (result ≡ differ (block image.old 0) (block image.new 0)) }
{
    let h = Header {
        released: FtNumber(0),
        issued: FtNumber(0),
        secured: FtNumber(0),
        first: 0,
        held: 0,
        timeout: terms.timeout,
        kept: 1,
        marks: 0,
        keepalive: terms.keepalive,
        maxpdu: terms.maxpdu,
    };
    let labels = [0u32; label_list::WORD_COUNT];
    calls::store_changed(image, h, &labels)
}

// A resumed session: the peer's ACK is applied, and the timeout is the newly agreed one. Whether block 0 changed.
fn store_resumed(image: &mut [u8], terms: Terms, count: u32, ack: FtNumber) -> bool
    requires { IsSound image.old × (count ≤ (decode image.old).header.held) }
    ensures { (image.new ≡ stored image.old (fewer count) same (resumed (state_of image.old) terms count ack.0)) × (result ≡ differ (block image.old 0) (block image.new 0)) }
{
    let h = image::header_of(image);
    let mut next = calls::released_header(h, count, ack);
    next.timeout = terms.timeout;
    // Nothing is released, so no label is freed.
    if count == 0 {
        return calls::store_numbers(image, next);
    }
    let mut words = [0u32; label_list::WORD_COUNT];
    image::labels_of(image, &mut words);
    calls::release_labels(image, count as usize, &mut words);
    calls::store_changed(image, next, &words)
}

// The state released. Whether block 0 changed.
fn store_released(image: &mut [u8]) -> bool
    requires { IsSound image.old }
    ensures { (image.new ≡ stored image.old empty same released_state) × (result ≡ differ (block image.old 0) (block image.new 0)) }
{
    let o = calls::release(image, Answer::Done);
    o.block0
}

// Stores the state that a start leads to. Whether block 0 changed.
fn store_start(image: &mut [u8], start: Start) -> bool
    requires { IsSound image.old × StartFits (decode image.old).header.held (Ok start) }
    ensures { (image.new ≡ stored image.old (start_slots (Ok start)) same (start_state (state_of image.old) (Ok start))) × (result ≡ differ (block image.old 0) (block image.new 0)) }
{
    match start {
        Start::Plain => store_released(image),
        Start::Fresh(terms) => store_fresh(image, terms),
        Start::Resumed(terms, count, ack) => store_resumed(image, terms, count, ack),
    }
}

// UpFT with nothing sent yet.
fn up_ft(resumed: bool) -> Phase
    ensures { result ≡ up_with resumed 0 }
{
    Phase::UpFT(Progress {
        sent: 0,
        resumed: resumed,
    })
}

// The phase that a start leads to.
fn begun_phase(start: Start) -> Phase
    ensures { result ≡ begun_phase start }
{
    match start {
        Start::Plain => Phase::UpPlain,
        Start::Fresh(_) => up_ft(false),
        Start::Resumed(_, _, _) => up_ft(true),
    }
}

// Begins the session.
fn begin(image: &mut [u8], phase: Phase, start: Start) -> Outcome
    requires { IsSound image.old × StartFits (decode image.old).header.held (Ok start) }
    ensures { after_with result image.new [] ≡ begun_on image.old phase (Ok start) }
{
    Outcome {
        answer: Answer::Done,
        phase: begun_phase(start),
        written: 0,
        slot: 0,
        block0: store_start(image, start),
        further: 0,
        leftout: 0,
    }
}

// The peer's Init was received.
pub fn init_received(image: &mut [u8], phase: Phase, msg: &[u8]) -> Outcome
    ensures { after_with result image.new [] ≡ init_received_of image.old phase msg.now }
{
    let a = calls::admit(image, phase);
    if !calls::is_done(a) {
        return calls::refuse(a, phase);
    }
    if !awaits_init(phase) {
        return calls::refuse(Answer::WrongPhase, phase);
    }
    let h = image::header_of(image);
    match judge_start(h, proposal_of(phase), message::read_message(msg)) {
        Ok(start) => begin(image, phase, start),
        Err(answer) => calls::settle(image, answer, phase),
    }
}
