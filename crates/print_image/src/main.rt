// Prints what a stored image says, on standard input or in the file that is named: six lines of counts, or the one line of its refusal. What cannot be read
// is told on standard error and not judged. Proved safe and ending; what the system reads and writes is tested.
#![tactic(auto)]

use std::io::{Read, Write};
use std::rt::Env;

fn print_report<O: Write>(image: &[u8], out: &mut O) {
    let mut line = [0u8; 186];
    let end = image_report::lines::put_report(&mut line, image_report::report_of(image));
    let _ = out.write_all(&line[..end]);
}

// Reads the image; a byte more than it may have shows that it is too long.
fn print_input<H: Env, R: Read, O: Write, E: Write>(
    rt: &H,
    input: &mut R,
    out: &mut O,
    err: &mut E,
) {
    let mut image = [0u8; image::IMAGE_SIZE + 1];
    let read = stream_reads::read_full(input, &mut image);
    if arguments::input_fails(rt, read.failure, err) {
        return;
    }
    let size = read.count;
    print_report(&image[..size], out);
}

fn main(rt: HostRuntime) {
    let mut out = rt.stdout();
    let mut err = rt.stderr();
    let usage =
        b"usage: print_image [FILE]   prints what a stored image counts, or why it is refused; without FILE it reads standard input\n";
    let Some(mut input) = arguments::input(&rt, usage, &mut out, &mut err) else {
        return;
    };
    print_input(&rt, &mut input, &mut out, &mut err);
}
