// Five places, 0 to 4, each with a cabinet: its image, its last output, and what its owner keeps beside them.
ghost use Rattle.std.specs.Prelude.{◌+◌, ◌≤◌, ◌≡◌};

use crate::script::NONE;
use crate::show::say;
use calls::Phase;
use std::io;
use std::io::Write;

const SIZE: u32 = image::IMAGE_SIZE as u32;

// The phase, and how many bytes the last output has.
#[derive(Clone, Copy)]
pub struct Cabinet {
    pub phase: Phase,
    pub written: usize,
}

#[derive(Clone, Copy)]
pub struct Cabinets {
    pub at: [Cabinet; 5],
}

// The cabinet at a place.
pub fn cabinet_at(c: Cabinets, place: u32) -> Cabinet {
    if place > 4 {
        return c.at[0];
    }
    let i = place as usize;
    c.at[i]
}

// Says that a line can't be read, so that the output is not the expected one.
pub fn refuse(to: &mut impl Write, c: Cabinets) -> io::Result<Cabinets> {
    say(to, b" cannot be read\n")?;
    Ok(c)
}

// The cabinets with another phase at a place; what it sent last is forgotten only for something new.
pub fn with_cabinet(
    to: &mut impl Write,
    c: Cabinets,
    place: u32,
    phase: Phase,
    written: usize,
) -> io::Result<Cabinets> {
    if place > 4 {
        return refuse(to, c);
    }
    let i = place as usize;
    let mut next = c;
    if written == 0 {
        let old = c.at[i];
        next.at[i] = Cabinet {
            phase: phase,
            written: old.written,
        };
        return Ok(next);
    }
    next.at[i] = Cabinet {
        phase: phase,
        written: written,
    };
    Ok(next)
}

// A part of the images, or of the outputs.
#[derive(Clone, Copy)]
pub struct Part {
    pub start: usize,
    pub end: usize,
}

// So many bytes from a start on, of `len` bytes; nothing where these are too few.
fn part_of(start: u32, count: u32, len: usize) -> Part
    ensures { (result.start ≤ result.end) × (result.end ≤ len) }
{
    let start = start as usize;
    let end = start + count as usize;
    if end > len {
        return Part { start: 0, end: 0 };
    }
    Part {
        start: start,
        end: end,
    }
}

// How many bytes of the image at a place the calls are lent: at place 0 one too few.
fn image_size(place: u32) -> u32 {
    if place == 0 {
        return SIZE - 1;
    }
    SIZE
}

// The image at a place.
pub fn image_part(place: u32, len: usize) -> Part
    ensures { (result.start ≤ result.end) × (result.end ≤ len) }
{
    part_of(block_start(place, 0), image_size(place), len)
}

// The room for output at a place, of 512 bytes.
pub fn output_part(place: u32, room: u32, len: usize) -> Part
    ensures { (result.start ≤ result.end) × (result.end ≤ len) }
{
    if place > 4 {
        return Part { start: 0, end: 0 };
    }
    if room > 512 {
        return part_of(place * 512, 512, len);
    }
    part_of(place * 512, room, len)
}

// Where a block of a place's image begins, and the image where no block is given; behind all images where there is no such block.
pub fn block_start(place: u32, block: u32) -> u32 {
    if place > 4 {
        return NONE;
    }
    if block == NONE {
        return place * SIZE;
    }
    if block >= SIZE / 512 {
        return NONE;
    }
    place * SIZE + block * 512
}

// How many bytes are copied to a place: a block, or the image where no block is given.
pub fn copied_size(place: u32, block: u32) -> u32 {
    if block == NONE {
        return image_size(place);
    }
    512
}

// So many bytes behind a start.
pub fn behind(start: u32, count: u32) -> usize
    ensures { result ≡ start + count }
{
    start as usize + count as usize
}

// Copies bytes of the images to another place in them; whether both are there.
pub fn copy_bytes(images: &mut [u8], to: u32, from: u32, size: u32) -> bool {
    if behind(to, size) > images.len() {
        return false;
    }
    if behind(from, size) > images.len() {
        return false;
    }
    for i in 0..size {
        let source = behind(from, i);
        let target = behind(to, i);
        images[target] = images[source];
    }
    true
}
