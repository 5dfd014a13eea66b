// Runs print_image's work on each file that its arguments name, after a line with the file's name.
// The files and the expected lines are made by tests/images/make.py.
#![tactic(auto)]

use std::io;
use std::io::Write;
use std::rt::{Env, Files};

// Prints the image that the argument names, and answers whether there was one.
fn print_argument<R: Env + Files, O: Write, E: Write>(
    rt: &R,
    index: usize,
    out: &mut O,
    err: &mut E,
) -> io::Result<bool> {
    let mut path = [0u8; 4096];
    let length = arguments::read_argument(rt, index, &mut path);
    if length == 0 {
        return Ok(false);
    }
    let Some(mut file) = arguments::opened(rt, &path[..length], err) else {
        return Ok(false);
    };
    out.write_all(&path[..length])?;
    out.write_all(b"\n")?;
    image_report::lines::print_image(&mut file, out)?;
    Ok(true)
}

fn main(rt: HostRuntime) -> io::Result<()> {
    let mut out = rt.stdout();
    let mut err = rt.stderr();
    for index in 1..1000 {
        if !print_argument(&rt, index, &mut out, &mut err)? {
            break;
        }
    }
    Ok(())
}
