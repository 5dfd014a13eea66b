// What a call answered, and what an image counts, as lines on standard output.
use crate::script::first;
use calls::{Answer, Outcome, Phase};
use ft_number::MessageId;
use image::Counts;
use std::io;
use std::io::Write;

pub fn say(to: &mut impl Write, s: &[u8]) -> io::Result<()> {
    to.write_all(s)
}

fn number(to: &mut impl Write, name: &[u8], n: u64) -> io::Result<()> {
    say(to, name)?;
    write!(to, "{n}")
}

// Bytes in hexadecimal: a block at most, and no message is longer.
fn hex(to: &mut impl Write, bytes: &[u8]) -> io::Result<()> {
    if bytes.len() > 512 {
        return Ok(());
    }
    let mut line = [0u8; 1024];
    let end = text::put_hex(&mut line, 0, bytes);
    say(to, first(&line, end))
}

// The answer's number, and the block that a refused image names.
fn show_answer(to: &mut impl Write, answer: Answer) -> io::Result<()> {
    number(to, b": ", calls::answer_number(answer) as u64)?;
    match answer {
        Answer::BadBlock(b) => number(to, b" block ", b as u64),
        Answer::BadField(b) => number(to, b" block ", b as u64),
        _ => Ok(()),
    }
}

fn show_phase(to: &mut impl Write, phase: Phase) -> io::Result<()> {
    match phase {
        Phase::Idle => say(to, b", Idle"),
        Phase::InitWait(v) => number(to, b", InitWait ", v.timeout as u64),
        Phase::UpFT(u) => {
            number(to, b", UpFT ", u.sent as u64)?;
            if u.resumed {
                say(to, b" resumed")?;
            }
            Ok(())
        }
        Phase::UpPlain => say(to, b", UpPlain"),
        Phase::Failed => say(to, b", Failed"),
    }
}

// The check of a block: four bytes that stand for all its bytes.
fn show_check(to: &mut impl Write, image: &[u8], block: usize) -> io::Result<()> {
    if block > image.len() / 512 {
        return Ok(());
    }
    let at = block * 512 + 508;
    let end = at + 4;
    if image.len() < end {
        return Ok(());
    }
    say(to, b" ")?;
    hex(to, &image[at..end])
}

// The checks of the further blocks that are named by their bits, in their order.
fn show_further(to: &mut impl Write, image: &[u8], further: u32) -> io::Result<()> {
    let mut left = further;
    for b in image::REQUEST_BLOCK..image::BLOCK_COUNT {
        if left % 2 == 1 {
            show_check(to, image, b)?;
        }
        left = left / 2;
    }
    Ok(())
}

// What the owner has to store, each block with its check: the slot, the further blocks, block 0.
fn show_stores(
    to: &mut impl Write,
    image: &[u8],
    slot: usize,
    further: u32,
    block0: bool,
) -> io::Result<()> {
    number(to, b", slot ", slot as u64)?;
    if slot != 0 {
        show_check(to, image, slot)?;
    }
    number(to, b", further ", further as u64)?;
    show_further(to, image, further)?;
    if !block0 {
        return say(to, b", block0 false");
    }
    say(to, b", block0 true")?;
    show_check(to, image, 0)
}

// How many messages were left out, if any were.
fn show_leftout(to: &mut impl Write, leftout: u32) -> io::Result<()> {
    if leftout != 0 {
        number(to, b", left out ", leftout as u64)?;
    }
    Ok(())
}

// The output, on a line of its own; the bytes after it are not printed.
fn show_output(to: &mut impl Write, out: &[u8], written: usize) -> io::Result<()> {
    if written == 0 {
        return Ok(());
    }
    say(to, b"  ")?;
    hex(to, first(out, written))?;
    say(to, b"\n")
}

// An outcome, and the output on a line of its own.
pub fn show_outcome(to: &mut impl Write, o: Outcome, image: &[u8], out: &[u8]) -> io::Result<()> {
    let answer = o.answer;
    let phase = o.phase;
    show_answer(to, answer)?;
    show_phase(to, phase)?;
    number(to, b", written ", o.written as u64)?;
    show_stores(to, image, o.slot, o.further, o.block0)?;
    show_leftout(to, o.leftout)?;
    say(to, b"\n")?;
    show_output(to, out, o.written)
}

fn show_numbers(to: &mut impl Write, c: Counts) -> io::Result<()> {
    number(to, b" released ", c.released.0 as u64)?;
    number(to, b" issued ", c.issued.0 as u64)?;
    number(to, b" secured ", c.secured.0 as u64)?;
    number(to, b" held ", c.held as u64)?;
    number(to, b" pended ", c.pended as u64)?;
    number(to, b" labels ", c.labels as u64)
}

// The open Request at a label word; none too in an image that is refused, and where there is no such word.
fn request_at(image: &[u8], place: u32) -> Option<MessageId> {
    if image::verdict_number(image::check_image(image)) != 0 {
        return None;
    }
    if label_list::WORD_COUNT <= place as usize {
        return None;
    }
    if image::label_at(image, place as usize) != label_list::REQUEST_WORD {
        return None;
    }
    Some(MessageId(image::id_at(image, place as usize)))
}

// Whether a label word is an open Request's, and its ID.
pub fn show_request(to: &mut impl Write, image: &[u8], place: u32) -> io::Result<()> {
    match request_at(image, place) {
        None => say(to, b" open 0 id 0\n"),
        Some(id) => {
            number(to, b" open 1 id ", id.0 as u64)?;
            say(to, b"\n")
        }
    }
}

// The counts of an image.
pub fn show_counts(to: &mut impl Write, image: &[u8]) -> io::Result<()> {
    match image_report::report_of(image) {
        Ok(c) => show_numbers(to, c)?,
        Err(refusal) => {
            number(to, b" refused ", refusal.answer as u64)?;
            number(to, b" block ", refusal.block as u64)?;
        }
    }
    say(to, b"\n")
}
