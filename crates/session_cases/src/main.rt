// Plays the script on standard input: the public calls on five images, and prints every outcome. tests/session/make.py writes the
// script and, by a cabinet of its own, the expected lines.
//
// A line of the script is
//     NAME: WORD NUMBERS: MESSAGE
// NAME is printed in front of what comes of the line; it may be empty. The words and their numbers stand in words.rt. The message is in
// hexadecimal, or `from` and the place that sent it last; few words have one.
#![tactic(auto)]

use calls::Phase;
use places::{Cabinet, Cabinets};
use std::io;
use std::io::Write;

mod calling;
mod places;
mod playing;
mod script;
mod show;
mod words;

// Plays a script on five new places.
fn play_script(to: &mut impl Write, script: &[u8]) -> io::Result<()> {
    let mut images = [0u8; 5 * image::IMAGE_SIZE];
    let mut outputs = [0u8; 5 * 512];
    let idle = Cabinet {
        phase: Phase::Idle,
        written: 0,
    };
    playing::play(
        to,
        &mut images,
        &mut outputs,
        script,
        Cabinets { at: [idle; 5] },
    )
}

// What came of the script is played, also where a read failed after it.
fn main(rt: HostRuntime) -> io::Result<()> {
    let mut text = [0u8; 180224];
    let read = stream_reads::read_full(&mut rt.stdin(), &mut text);
    let size = read.count;
    play_script(&mut rt.stdout(), &text[..size])?;
    match read.failure {
        Some(why) => Err(why),
        None => Ok(()),
    }
}
