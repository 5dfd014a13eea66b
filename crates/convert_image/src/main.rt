// Moves the stored image on standard input from version 1 to version 2 (forward), or from 2 to 1 (back), into a file that it makes, and then prints how many
// bytes it has; or prints the one line of its refusal, as print_image does, and makes no file. A program has no exit status: that line is what tells that
// the file is there whole. Proved safe and ending; what the system reads and writes is tested.
#![tactic(auto)]

use arguments::Asked;
use convert::ConversionFault;
use std::fs::OpenFile;
use std::io;
use std::io::{Read, Write};
use std::rt::{Env, Files};

// What the first argument asks for.
#[derive(Clone, Copy)]
enum Direction {
    Forward,
    Back,
    Unknown,
}

fn direction_of(argument: &[u8]) -> Direction {
    if !octets::bytes_differ(argument, b"forward") {
        return Direction::Forward;
    }
    if !octets::bytes_differ(argument, b"back") {
        return Direction::Back;
    }
    Direction::Unknown
}

fn write_usage<W: Write>(writer: &mut W) {
    let _ = writer.write_all(
        b"usage: convert_image forward|back FILE   moves the stored image on standard input from version 1 to 2, or back, into FILE, which it makes, and prints `converted N bytes` when it is there; or prints why it is refused\n",
    );
}

// The line that tells that all went well; its end is written last.
fn write_done<O: Write>(size: usize, out: &mut O) -> io::Result<()> {
    write!(out, "converted {size}")?;
    out.write_all(b" bytes\n")
}

// That line; where it cannot be written, `err` says why.
fn tell_done<O: Write, E: Write>(size: usize, out: &mut O, err: &mut E) {
    if let Err(why) = write_done(size, out) {
        arguments::fail(err, b"standard output", &why);
    }
}

// All of the image in the file, and the file on its medium.
fn write_image<F: Write + OpenFile + Drop>(mut file: F, image: &[u8]) -> io::Result<()> {
    file.write_all(image)?;
    file.sync_all()
}

// The file, made; one that is there already is left as it is. Where the image does not get there whole, `err` says why and no file is left.
fn store<R: Files, O: Write, E: Write>(
    rt: &R,
    path: &[u8],
    image: &[u8],
    out: &mut O,
    err: &mut E,
) {
    let Some(file) = arguments::created(rt, path, err) else {
        return;
    };
    match write_image(file, image) {
        Ok(()) => tell_done(image.len(), out, err),
        Err(why) => {
            arguments::fail(err, path, &why);
            let _ = arguments::remove(rt, path);
        }
    }
}

fn refuse<O: Write>(fault: ConversionFault, out: &mut O) {
    let mut line = [0u8; 186];
    let end = image_report::lines::put_refusal(
        &mut line,
        convert::conversion_number(Err(fault)),
        convert::conversion_block(Err(fault)),
    );
    let _ = out.write_all(&line[..end]);
}

fn settle<R: Files, O: Write, E: Write>(
    rt: &R,
    answer: Result<(), ConversionFault>,
    path: &[u8],
    image: &[u8],
    out: &mut O,
    err: &mut E,
) {
    match answer {
        Ok(()) => store(rt, path, image, out, err),
        Err(fault) => refuse(fault, out),
    }
}

fn move_image(forward: bool, image: &[u8], out: &mut [u8]) -> Result<(), ConversionFault> {
    if forward {
        return convert::forward(image, out);
    }
    convert::back(image, out)
}

// Reads the image; a byte more than it may have shows that it is too long. What cannot be read is told, and not judged.
fn move_input<R: Files + Input, O: Write, E: Write>(
    rt: &R,
    forward: bool,
    path: &[u8],
    out: &mut O,
    err: &mut E,
) {
    let mut image = [0u8; image::IMAGE_SIZE + 1];
    let mut input = rt.reader();
    let read = stream_reads::read_full(&mut input, &mut image);
    if arguments::read_fails(read.failure, b"standard input", err) {
        return;
    }
    let size = read.count;
    let mut moved = [0u8; image::IMAGE_SIZE];
    let answer = move_image(forward, &image[..size], &mut moved);
    settle(rt, answer, path, &moved, out, err);
}

// With both arguments: a direction, and the name of a file.
fn run<R: Env + Files + Input, O: Write, E: Write>(rt: &R, out: &mut O, err: &mut E) {
    let mut argument = [0u8; 4096];
    let length = arguments::read_argument(rt, 1, &mut argument);
    let mut path = [0u8; 4096];
    let end = arguments::read_argument(rt, 2, &mut path);
    match arguments::asked_by(&path[..end]) {
        Asked::File => {}
        Asked::Usage => return write_usage(err),
        Asked::Unknown => return write_usage(err),
    }
    match direction_of(&argument[..length]) {
        Direction::Forward => move_input(rt, true, &path[..end], out, err),
        Direction::Back => move_input(rt, false, &path[..end], out, err),
        Direction::Unknown => write_usage(err),
    }
}

// With one argument only `--help` is known.
fn help<R: Env, O: Write, E: Write>(rt: &R, out: &mut O, err: &mut E) {
    let mut argument = [0u8; 4096];
    let length = arguments::read_argument(rt, 1, &mut argument);
    match arguments::asked_by(&argument[..length]) {
        Asked::Usage => write_usage(out),
        Asked::File => write_usage(err),
        Asked::Unknown => write_usage(err),
    }
}

fn main(rt: HostRuntime) {
    let mut out = rt.stdout();
    let mut err = rt.stderr();
    if arguments::is_given(&rt, 3) || !arguments::is_given(&rt, 1) {
        return write_usage(&mut err);
    }
    if arguments::is_given(&rt, 2) {
        return run(&rt, &mut out, &mut err);
    }
    help(&rt, &mut out, &mut err);
}
