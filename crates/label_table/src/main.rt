// Runs every event on a list that holds label 16 under each code, and on one with an open Request in its place; prints a row for each event.
// Beside the first word stands the ID 9. A cell gives the answer's number and the codes of the first two words afterwards. The expected rows are made by tests/labels/make.py.
#![tactic(auto)]

ghost use Rattle.std.specs.Prelude.{◌≤◌, ◌<◌, ◌≡◌, length};
ghost use Rattle.label_list.specs.Word.{word_count};
ghost use Rattle.label_events.specs.Accept.{acceptance_number};
ghost use Rattle.label_events.specs.Protect.{protection_number};
ghost use Rattle.label_events.specs.Receive.{reception_number};

use ft_number::MessageId;
use label_events::{Acceptance, Meets, Reception, Touched};
use label_list::{
    LABEL_COUNT, LabelMessage, Protection, REQUEST_WORD, SweepRule, WORD_COUNT, Wanted,
};
use std::io;
use std::io::Write;

#[derive(Clone, Copy)]
enum Event {
    Accepted(LabelMessage, u32),
    Acked(LabelMessage, u32),
    Asked(MessageId),
    Aborted(MessageId),
    Received(LabelMessage, bool, Touched),
    // a Mapping that names a Request's ID
    Answered(MessageId, bool, Touched),
    Broken,
}

fn text(out: &mut impl Write, s: &[u8]) -> io::Result<()> {
    out.write_all(s)
}

fn number(out: &mut impl Write, n: u32) -> io::Result<()> {
    write!(out, " {n}")
}

fn acceptance_number(answer: Acceptance) -> u32
    ensures { result ≡ acceptance_number answer }
{
    match answer {
        Acceptance::Taken => 0,
        Acceptance::NotAllowed => 6,
        Acceptance::NoRoom => 13,
    }
}

fn reception_number(answer: Reception) -> u32
    ensures { result ≡ reception_number answer }
{
    match answer {
        Reception::Taken => 0,
        Reception::NoRoom => 21,
    }
}

fn protection_number(verdict: Protection) -> u32
    ensures { result ≡ protection_number verdict }
{
    match verdict {
        Protection::Right => 0,
        Protection::Missing => 33,
        Protection::Wrong => 32,
    }
}

// The protection is judged first; a message whose protection is missing or wrong is not received. It answers the Request at the place `request`, and
// its FEC has the entry of its label: every FEC here is another than a prefix.
fn receive(
    words: &mut [u32],
    request: Option<usize>,
    message: LabelMessage,
    protected: bool,
    touched: Touched,
) -> u32 {
    let place = label_events::received_place(words, message, touched);
    let entries = [0u64; WORD_COUNT];
    let refusal = protection_number(label_events::judge_protection(
        words, &entries, place, message, protected, touched,
    ));
    if refusal != 0 {
        return refusal;
    }
    let spare = label_list::find(words, Wanted::Free);
    let meets = Meets {
        request: request,
        spare: spare,
        another: false,
    };
    let receipt = label_events::receive(words, &entries, place, meets, message, protected, touched);
    let reception = receipt.reception;
    reception_number(reception)
}

// The answer's number; 0 where the event has no answer.
fn happen(words: &mut [u32], ids: &mut [u32], event: Event) -> u32
    requires { length words.old ≤ length ids.old }
{
    match event {
        Event::Accepted(message, label) => {
            let accepted = label_events::accept(words, message, label);
            let acceptance = accepted.acceptance;
            acceptance_number(acceptance)
        }
        Event::Asked(id) => {
            let accepted = label_events::ask(words, ids, id);
            let acceptance = accepted.acceptance;
            acceptance_number(acceptance)
        }
        Event::Aborted(id) => {
            let accepted = label_events::abort(words, ids, id);
            let acceptance = accepted.acceptance;
            acceptance_number(acceptance)
        }
        Event::Acked(message, label) => {
            label_events::release_by_ack(words, message, label);
            0
        }
        Event::Received(message, protected, touched) => receive(
            words, None, message, protected, touched,
        ),
        Event::Answered(id, protected, touched) => {
            let request = label_list::find_request(words, ids, id);
            receive(words, request, LabelMessage::Mapping, protected, touched)
        }
        Event::Broken => {
            label_list::sweep(words, SweepRule::AfterBreak);
            0
        }
    }
}

// Where the list is to be full, other labels stand in every word.
fn fill(words: &mut [u32], full: bool)
    requires { length words.old ≡ word_count }
{
    if !full {
        return;
    }
    let mut i = 0;
    while i < words.len() {
        words[i] = label_list::word_of(1000 + i as u32, 1);
        i += 1;
    }
}

// Lists label 16 in the first word; code 0 leaves it absent, code 7 is an open Request.
fn list(words: &mut [u32], code: u32)
    requires { (length words.old ≡ word_count) × (code < 10) }
{
    if code == 0 {
        return;
    }
    if code == 7 {
        words[0] = REQUEST_WORD;
        return;
    }
    words[0] = label_list::word_of(16, code);
}

fn cell(out: &mut impl Write, event: Event, code: u32, full: bool) -> io::Result<()>
    requires { code < 10 }
{
    let mut words = [0u32; WORD_COUNT];
    fill(&mut words, full);
    list(&mut words, code);
    let mut ids = [0u32; WORD_COUNT];
    ids[0] = 9;
    let answer = happen(&mut words, &mut ids, event);
    text(out, b" |")?;
    number(out, answer)?;
    number(out, words[0] / LABEL_COUNT)?;
    number(out, words[1] / LABEL_COUNT)
}

// A cell for each code: 0 for a label that is absent, 7 for an open Request.
fn row(out: &mut impl Write, event: Event, full: bool) -> io::Result<()> {
    for code in 0..10 {
        cell(out, event, code, full)?;
    }
    text(out, b"\n")
}

fn name(out: &mut impl Write, message: LabelMessage) -> io::Result<()> {
    match message {
        LabelMessage::Mapping => text(out, b" mapping"),
        LabelMessage::Withdraw => text(out, b" withdraw"),
        LabelMessage::Release => text(out, b" release"),
    }
}

fn sent(out: &mut impl Write, message: LabelMessage) -> io::Result<()> {
    text(out, b"accept")?;
    name(out, message)?;
    row(out, Event::Accepted(message, 16), false)?;
    text(out, b"accept full")?;
    name(out, message)?;
    row(out, Event::Accepted(message, 16), true)?;
    text(out, b"accept 15")?;
    name(out, message)?;
    row(out, Event::Accepted(message, 15), false)?;
    text(out, b"ack")?;
    name(out, message)?;
    row(out, Event::Acked(message, 16), false)
}

fn asked(out: &mut impl Write) -> io::Result<()> {
    text(out, b"accept request")?;
    row(out, Event::Asked(MessageId(9)), false)?;
    text(out, b"accept full request")?;
    row(out, Event::Asked(MessageId(9)), true)?;
    text(out, b"accept other request")?;
    row(out, Event::Asked(MessageId(10)), false)?;
    text(out, b"accept abort")?;
    row(out, Event::Aborted(MessageId(9)), false)?;
    text(out, b"accept other abort")?;
    row(out, Event::Aborted(MessageId(10)), false)
}

// A Mapping that names the ID 9, or another.
fn answered(out: &mut impl Write, protected: bool) -> io::Result<()> {
    text(out, b"receive naming mapping")?;
    row(
        out,
        Event::Answered(MessageId(9), protected, Touched::Label(16)),
        false,
    )?;
    text(out, b"receive naming full mapping")?;
    row(
        out,
        Event::Answered(MessageId(9), protected, Touched::Label(16)),
        true,
    )?;
    text(out, b"receive naming 15 mapping")?;
    row(
        out,
        Event::Answered(MessageId(9), protected, Touched::Label(15)),
        false,
    )?;
    text(out, b"receive naming other mapping")?;
    row(
        out,
        Event::Answered(MessageId(10), protected, Touched::Label(16)),
        false,
    )
}

fn named(out: &mut impl Write, message: LabelMessage, protected: bool) -> io::Result<()> {
    text(out, b"receive")?;
    name(out, message)?;
    row(
        out,
        Event::Received(message, protected, Touched::Label(16)),
        false,
    )?;
    text(out, b"receive full")?;
    name(out, message)?;
    row(
        out,
        Event::Received(message, protected, Touched::Label(16)),
        true,
    )?;
    text(out, b"receive 15")?;
    name(out, message)?;
    row(
        out,
        Event::Received(message, protected, Touched::Label(15)),
        false,
    )
}

// Without a label: the wildcard FEC, and another FEC.
fn unnamed(out: &mut impl Write, message: LabelMessage, protected: bool) -> io::Result<()> {
    text(out, b"receive every")?;
    name(out, message)?;
    row(
        out,
        Event::Received(message, protected, Touched::Every),
        false,
    )?;
    text(out, b"receive other")?;
    name(out, message)?;
    row(
        out,
        Event::Received(message, protected, Touched::Nothing),
        false,
    )
}

fn received(out: &mut impl Write, protected: bool) -> io::Result<()> {
    named(out, LabelMessage::Mapping, protected)?;
    named(out, LabelMessage::Withdraw, protected)?;
    named(out, LabelMessage::Release, protected)?;
    answered(out, protected)?;
    unnamed(out, LabelMessage::Withdraw, protected)?;
    unnamed(out, LabelMessage::Release, protected)
}

fn main(rt: HostRuntime) -> io::Result<()> {
    let mut out = rt.stdout();
    sent(&mut out, LabelMessage::Mapping)?;
    sent(&mut out, LabelMessage::Withdraw)?;
    sent(&mut out, LabelMessage::Release)?;
    asked(&mut out)?;
    text(&mut out, b"protected\n")?;
    received(&mut out, true)?;
    text(&mut out, b"unprotected\n")?;
    received(&mut out, false)?;
    text(&mut out, b"break")?;
    row(&mut out, Event::Broken, false)
}
