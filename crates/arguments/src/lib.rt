// What a program is to read: standard input, or the file that its one argument names. `--help` asks for its usage.
#![tactic(auto)]

ghost use Rattle.std.specs.Prelude.{◌≡◌, ◌≤◌, length};
ghost use Rattle.arguments.specs.Asked.{asked_of};

use std::env::FillError;
use std::fs::OpenOptions;
use std::io::{ErrorKind, Read, Seek, Write};
use std::rt::{Env, Files};
use std::{fs, io};

// What an argument asks for.
#[derive(Clone, Copy)]
pub enum Asked {
    Usage,
    File,
    Unknown,
}

// What is read: standard input, or the file that is named.
#[derive(Drop)]
pub enum Source<S, F> {
    Standard(S),
    Named(F),
}

impl<S: Read, F: Read> Read for Source<S, F> {
    fn read(&mut self, buffer: &mut [u8]) -> io::Result<usize> {
        match self {
            Source::Standard(input) => input.read(buffer),
            Source::Named(file) => file.read(buffer),
        }
    }
}

// `--help` asks for the usage. Nothing else that begins with a `-` is known, nor is an empty argument; every other names a file.
pub fn asked_by(argument: &[u8]) -> Asked
    ensures { result ≡ asked_of argument.now }
{
    if !octets::bytes_differ(argument, b"--help") {
        return Asked::Usage;
    }
    if argument.len() == 0 {
        return Asked::Unknown;
    }
    if argument[0] == b'-' {
        return Asked::Unknown;
    }
    Asked::File
}

// Whether the program was started with this argument.
pub fn is_given<R: Env>(rt: &R, index: usize) -> bool {
    let mut start = [0u8; 1];
    match rt.arg(index, &mut start) {
        Ok(_) => true,
        Err(FillError::TooLong) => true,
        Err(FillError::NotPresent) => false,
    }
}

// Puts an argument to the start of `room` and answers its length: 0 where there is none, and where it does not fit.
pub fn read_argument<R: Env>(rt: &R, index: usize, room: &mut [u8]) -> usize
    ensures { result ≤ length room.new }
{
    match rt.arg(index, room) {
        Ok(length) => length,
        Err(_) => 0,
    }
}

// Why a call failed, in the system's words without its number, put into `room`.
fn reason<'a>(why: &io::Error, room: &'a mut [u8]) -> &'a str {
    let size = room.len();
    let mut rest = &mut room[..];
    let _ = write!(rest, "{why}");
    let end = size.saturating_sub(rest.len());
    let Ok(text) = str::from_utf8(&room[..end]) else {
        return "";
    };
    match text.split_once(" (os error ") {
        Some((words, _)) => words,
        None => text,
    }
}

// Writes a line: what failed, as the caller names it, a colon and why.
pub fn fail<E: Write>(err: &mut E, what: &[u8], why: &io::Error) {
    let mut room = [0u8; 256];
    let words = reason(why, &mut room);
    let _ = err.write_all(what);
    let _ = writeln!(err, ": {words}");
}

// A path has to be text.
fn name_of(path: &[u8]) -> io::Result<&str> {
    match str::from_utf8(path) {
        Ok(name) => Ok(name),
        Err(_) => Err(io::Error::from(ErrorKind::InvalidFilename)),
    }
}

// What a call on a file answered; where it failed, `err` says why.
fn or_fail<F, E: Write>(answer: io::Result<F>, path: &[u8], err: &mut E) -> Option<F> {
    match answer {
        Ok(file) => Some(file),
        Err(why) => {
            fail(err, path, &why);
            None
        }
    }
}

fn open_named<R: Files>(rt: &R, path: &[u8]) -> io::Result<R::File> {
    fs::open(rt, name_of(path)?)
}

fn create_named<R: Files>(rt: &R, path: &[u8]) -> io::Result<R::File> {
    let name = name_of(path)?;
    OpenOptions::new()
        .write(true)
        .create_new(true)
        .open(rt, name)
}

// The file, opened for reading; where that fails, `err` says why.
pub fn opened<R: Files, E: Write>(rt: &R, path: &[u8], err: &mut E) -> Option<R::File> {
    or_fail(open_named(rt, path), path, err)
}

// The file, made, for writing; where that fails, as where it is there already, `err` says why.
pub fn created<R: Files, E: Write>(rt: &R, path: &[u8], err: &mut E) -> Option<R::File> {
    or_fail(create_named(rt, path), path, err)
}

// Takes the file away.
pub fn remove<R: Files>(rt: &R, path: &[u8]) -> io::Result<()> {
    fs::remove_file(rt, name_of(path)?)
}

// What the one argument leads to.
fn input_named<R: Env + Files + Input, O: Write, E: Write>(
    rt: &R,
    usage: &[u8],
    out: &mut O,
    err: &mut E,
) -> Option<Source<R::Reader, R::File>> {
    let mut argument = [0u8; 4096];
    let length = read_argument(rt, 1, &mut argument);
    match asked_by(&argument[..length]) {
        Asked::Usage => {
            let _ = out.write_all(usage);
            None
        }
        Asked::Unknown => {
            let _ = err.write_all(usage);
            None
        }
        Asked::File => match opened(rt, &argument[..length], err) {
            Some(file) => Some(Source::Named(file)),
            None => None,
        },
    }
}

// What to read from; nothing where there is nothing to read. Then the usage has been written: to `out` where it was asked for, to `err` where an argument is
// not known or there are more than one; or the file did not open. Proved safe and ending; what the system reads and writes is tested.
pub fn input<R: Env + Files + Input, O: Write, E: Write>(
    rt: &R,
    usage: &[u8],
    out: &mut O,
    err: &mut E,
) -> Option<Source<R::Reader, R::File>> {
    if !is_given(rt, 1) {
        return Some(Source::Standard(rt.reader()));
    }
    if is_given(rt, 2) {
        let _ = err.write_all(usage);
        return None;
    }
    input_named(rt, usage, out, err)
}

// Why what is left of a file cannot be read, asked where reading ended before the file did. Only what has a position is read once more: a pipe has no reads
// that fail, and it or a terminal might have to be waited for; of standard input no position can be asked.
pub fn later_failure<S, F: Read + Seek>(source: &mut Source<S, F>) -> Option<io::Error> {
    match source {
        Source::Standard(_) => None,
        Source::Named(file) => {
            let mut next = [0u8; 1];
            match file.stream_position() {
                Err(_) => None,
                Ok(_) => file.read(&mut next).err(),
            }
        }
    }
}

// Whether a read failed; then `err` says so of `name`. Proved safe and ending; what the system reads and writes is tested.
pub fn read_fails<E: Write>(failure: Option<io::Error>, name: &[u8], err: &mut E) -> bool {
    match failure {
        None => false,
        Some(why) => {
            fail(err, name, &why);
            true
        }
    }
}

// The same of what `input` answered: it is named as the argument names it.
pub fn input_fails<R: Env, E: Write>(rt: &R, failure: Option<io::Error>, err: &mut E) -> bool {
    if !is_given(rt, 1) {
        return read_fails(failure, b"standard input", err);
    }
    let mut name = [0u8; 4096];
    let length = read_argument(rt, 1, &mut name);
    read_fails(failure, &name[..length], err)
}
