// Plays the script, line by line.
use crate::calling::{Call, make};
use crate::places::{
    Cabinets, behind, block_start, cabinet_at, copied_size, copy_bytes, image_part, output_part,
    refuse, with_cabinet,
};
use crate::script::{
    Numbers, UNREADABLE, after, before, first, is, read_hex, read_number, read_numbers,
};
use crate::show::{say, show_counts, show_outcome, show_request};
use crate::words::{Deed, deed_of};
use std::io;
use std::io::Write;

// Puts what a place sent last to the start of `msg`; how many bytes, or UNREADABLE.
fn load_sent(place: u32, outputs: &[u8], c: Cabinets, msg: &mut [u8]) -> usize {
    if place > 4 {
        return UNREADABLE;
    }
    let sender = cabinet_at(c, place);
    let size = sender.written;
    if size > msg.len() {
        return UNREADABLE;
    }
    let part = output_part(place, 512, outputs.len());
    let start = part.start;
    let end = part.end;
    octets::copy_to(msg, 0, first(&outputs[start..end], size));
    size
}

// Puts the message of a line to the start of `msg`: bytes in hexadecimal, or what a place sent last.
fn load_message(text: &[u8], outputs: &[u8], c: Cabinets, msg: &mut [u8]) -> usize {
    if is(before(text, b' '), b"from") {
        return load_sent(read_number(after(text, b' ')), outputs, c, msg);
    }
    read_hex(text, msg)
}

// Makes a call at a place, and prints what it answered.
fn play_call(
    to: &mut impl Write,
    images: &mut [u8],
    outputs: &mut [u8],
    c: Cabinets,
    call: Call,
    n: Numbers,
    msg: &[u8],
) -> io::Result<Cabinets> {
    let own = cabinet_at(c, n.place);
    let phase = own.phase;
    let lent = image_part(n.place, images.len());
    let start = lent.start;
    let end = lent.end;
    let lent = output_part(n.place, n.second, outputs.len());
    let room = lent.start;
    let room_end = lent.end;
    let image = &mut images[start..end];
    let out = &mut outputs[room..room_end];
    let o = make(call, n, image, phase, msg, out);
    show_outcome(to, o, image, out)?;
    let next = o.phase;
    with_cabinet(to, c, n.place, next, o.written)
}

// Prints the counts of the image at a place.
fn play_counts(
    to: &mut impl Write,
    images: &[u8],
    c: Cabinets,
    place: u32,
) -> io::Result<Cabinets> {
    let image = image_part(place, images.len());
    let start = image.start;
    let end = image.end;
    show_counts(to, &images[start..end])?;
    Ok(c)
}

// Prints the Request at a label word of the image at a place.
fn play_request(
    to: &mut impl Write,
    images: &[u8],
    c: Cabinets,
    n: Numbers,
) -> io::Result<Cabinets> {
    let image = image_part(n.place, images.len());
    let start = image.start;
    let end = image.end;
    show_request(to, &images[start..end], n.second)?;
    Ok(c)
}

// A title is a name alone.
fn end_line(to: &mut impl Write, c: Cabinets) -> io::Result<Cabinets> {
    say(to, b"\n")?;
    Ok(c)
}

// Copies a block, or the image, and the phase from another place.
fn copy(to: &mut impl Write, images: &mut [u8], c: Cabinets, n: Numbers) -> io::Result<Cabinets> {
    let target = block_start(n.place, n.third);
    let from = block_start(n.second, n.fourth);
    if !copy_bytes(images, target, from, copied_size(n.place, n.third)) {
        return refuse(to, c);
    }
    let source = cabinet_at(c, n.second);
    let phase = source.phase;
    with_cabinet(to, c, n.place, phase, 0)
}

// Puts another byte at an offset in an image.
fn spoil(to: &mut impl Write, images: &mut [u8], c: Cabinets, n: Numbers) -> io::Result<Cabinets> {
    let at = behind(block_start(n.place, 0), n.second);
    if at >= images.len() {
        return refuse(to, c);
    }
    images[at] = (n.third % 256) as u8;
    Ok(c)
}

// Prints the name of a line, and plays what stands behind it.
fn play_line(
    to: &mut impl Write,
    images: &mut [u8],
    outputs: &mut [u8],
    c: Cabinets,
    line: &[u8],
) -> io::Result<Cabinets> {
    say(to, before(line, b':'))?;
    let step = after(after(line, b':'), b' ');
    let mut msg = [0u8; 512];
    let size = load_message(after(after(step, b':'), b' '), outputs, c, &mut msg);
    if size > 512 {
        return refuse(to, c);
    }
    let call = before(step, b':');
    let n = read_numbers(after(call, b' '));
    match deed_of(before(call, b' '), n) {
        Deed::Make(call) => play_call(to, images, outputs, c, call, n, first(&msg, size)),
        Deed::Title => end_line(to, c),
        Deed::Counts => play_counts(to, images, c, n.place),
        Deed::Request => play_request(to, images, c, n),
        Deed::Copy => copy(to, images, c, n),
        Deed::Spoil => spoil(to, images, c, n),
        Deed::Put(phase) => with_cabinet(to, c, n.place, phase, 0),
        Deed::Unknown => refuse(to, c),
    }
}

// Plays every line of the script.
pub fn play(
    to: &mut impl Write,
    images: &mut [u8],
    outputs: &mut [u8],
    script: &[u8],
    idle: Cabinets,
) -> io::Result<()> {
    let mut c = idle;
    let mut rest = script;
    while rest.len() > 0 {
        c = play_line(to, images, outputs, c, before(rest, b'\n'))?;
        let next = after(rest, b'\n');
        rest = next;
    }
    Ok(())
}
