// A report as lines of text: each function puts its text from `at` on and answers where it ends.
ghost use Rattle.std.specs.Prelude.{◌+◌, ◌≤◌, length};
ghost use Rattle.text.specs.Text.{Put};
ghost use Rattle.image_report.specs.Lines.{report_room, line, numbers_text, counts_text, refused_text, text_of};

use crate::Refusal;
use image::Counts;
use std::io;
use std::io::{Read, Write};

// A name, a number and the line's end. The longest name has nine letters.
fn put_line(out: &mut [u8], at: usize, name: &[u8], n: u64) -> usize
    requires { (length name.now ≤ 10) × (at + 31 ≤ length out.old) }
    ensures put { Put out.old at (line name.now n) out.new result }
    ensures upper_bound { result ≤ at + 31 }
{
    let after = text::put_text(out, at, name);
    let end = text::put_decimal(out, after, n);
    text::put_text(out, end, b"\n")
}

fn put_numbers(out: &mut [u8], c: Counts) -> usize
    requires { report_room ≤ length out.old }
    ensures put { Put out.old 0 (numbers_text c) out.new result }
    ensures upper_bound { result ≤ 93 }
{
    let released = put_line(out, 0, b"released ", c.released.0 as u64);
    let issued = put_line(out, released, b"issued ", c.issued.0 as u64);
    put_line(out, issued, b"secured ", c.secured.0 as u64)
}

fn put_counts(out: &mut [u8], at: usize, c: Counts) -> usize
    requires { at + 93 ≤ length out.old }
    ensures put { Put out.old at (counts_text c) out.new result }
    ensures upper_bound { result ≤ at + 93 }
{
    let held = put_line(out, at, b"held ", c.held as u64);
    let pended = put_line(out, held, b"pended ", c.pended as u64);
    put_line(out, pended, b"labels ", c.labels as u64)
}

// Puts a refusal's one line at the start of `out` and answers its length; no byte after it changes.
pub fn put_refusal(out: &mut [u8], answer: u32, block: usize) -> usize
    requires { report_room ≤ length out.old }
    ensures put { Put out.old 0 (refused_text answer block) out.new result }
    ensures upper_bound { result ≤ report_room }
{
    let after = text::put_text(out, 0, b"refused ");
    let end = text::put_decimal(out, after, answer as u64);
    put_line(out, end, b" block ", block as u64)
}

// Puts a report at the start of `out` and answers its length; no byte after it changes.
pub fn put_report(out: &mut [u8], report: Result<Counts, Refusal>) -> usize
    requires { report_room ≤ length out.old }
    ensures put { Put out.old 0 (text_of report) out.new result }
    ensures upper_bound { result ≤ report_room }
{
    match report {
        Ok(c) => {
            let end = put_numbers(out, c);
            put_counts(out, end, c)
        }
        Err(refusal) => put_refusal(out, refusal.answer, refusal.block),
    }
}

// Reads an image, of any size, and prints what it says: a byte more than it may have shows that it is too long. Where a read fails, what came before is judged
// and the error answered. Proved safe and ending; what the system reads and writes is tested.
pub fn print_image<R: Read, W: Write>(reader: &mut R, writer: &mut W) -> io::Result<()> {
    let mut image = [0u8; image::IMAGE_SIZE + 1];
    let read = stream_reads::read_full(reader, &mut image);
    let size = read.count;
    let mut out = [0u8; 186];
    let end = put_report(&mut out, crate::report_of(&image[..size]));
    writer.write_all(&out[..end])?;
    match read.failure {
        Some(why) => Err(why),
        None => Ok(()),
    }
}
