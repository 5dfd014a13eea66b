// The stored image moved from version 1 to version 2, and back. Block 0 alone differs.
#![tactic(auto)]

ghost use Rattle.std.specs.Prelude.{◌<◌, ◌%◌, ◌++◌, ◌≡◌, eqb, leb, length, take, drop, replicate};
ghost use Rattle.octets.specs.Pick.{both};
ghost use Rattle.block.specs.Check.{block_size};
ghost use Rattle.block0.specs.declared.Version.TheVariants.{One, Two};
ghost use Rattle.block0.specs.Fields.{timeout_end};
ghost use Rattle.block0.specs.Layout.{places, header_by, labels_by, block_by};
ghost use Rattle.block0.specs.Updates.{header_timeout};
ghost use Rattle.convert.specs.declared.ConversionFault.TheVariants.{Image};
ghost use Rattle.convert.specs.Convert.{converted, convert_of, conversion_number, conversion_block};
ghost use Rattle.convert.specs.Move.{other, timeout_moved, header_moved, list_moved, movable};

use block0::{Header, Version};
use image::ImageFault;

// Why an image is not converted; the image given is refused as restore would refuse it.
#[derive(Clone, Copy)]
pub enum ConversionFault {
    Image(ImageFault),
    Immovable,
    NoRoom,
}

impl From<ImageFault> for ConversionFault {
    ghost from_gives = { λ fault e. e ≡ Image fault };

    fn from(fault: ImageFault) -> ConversionFault {
        ConversionFault::Image(fault)
    }
}

// Where the last of the 120 label words of version 1 stands in its block 0.
const LAST_WORD: usize = 504;

// The longest timeout that version 1 can say, in milliseconds.
const LONGEST: u32 = 65535000;

// The paper's number of an answer.
pub fn conversion_number(c: Result<(), ConversionFault>) -> u32
    ensures { result ≡ conversion_number c }
{
    match c {
        Ok(()) => 0,
        Err(ConversionFault::Image(fault)) => image::verdict_number(Err(fault)),
        Err(ConversionFault::Immovable) => 16,
        Err(ConversionFault::NoRoom) => 9,
    }
}

// The block that an answer names; 0 where none applies.
pub fn conversion_block(c: Result<(), ConversionFault>) -> usize
    ensures { result ≡ conversion_block c }
{
    match c {
        Ok(()) => 0,
        Err(ConversionFault::Image(fault)) => image::verdict_block(Err(fault)),
        Err(ConversionFault::Immovable) => 0,
        Err(ConversionFault::NoRoom) => 0,
    }
}

fn other_version(version: Version) -> Version
    ensures { result ≡ other version }
{
    match version {
        Version::One => Version::Two,
        Version::Two => Version::One,
    }
}

// The timeout in the other version's unit.
fn move_timeout(from: Version, timeout: u32) -> u32
    requires { timeout < timeout_end from }
    ensures { result ≡ timeout_moved from timeout }
{
    match from {
        Version::One => timeout * 1000,
        Version::Two => timeout / 1000,
    }
}

// The numbers with another timeout.
fn with_timeout(h: Header, timeout: u32) -> Header
    ensures { result ≡ header_timeout h timeout }
{
    let mut moved = h;
    moved.timeout = timeout;
    moved
}

// Whether version 1 can say a timeout: in whole seconds of 16 bits.
fn is_whole(timeout: u32) -> bool
    ensures { result ≡ both (eqb (timeout % 1000) 0) (leb timeout 65535000) }
{
    if timeout % 1000 != 0 {
        return false;
    }
    timeout <= LONGEST
}

// Whether the other version can say what block 0 says: with a label word less, or with its timeout.
fn is_movable(block: &[u8], from: Version) -> bool
    requires { length block.now ≡ block_size }
    ensures { result ≡ movable from (header_by from block.now) (labels_by from block.now) }
{
    match from {
        Version::One => octets::get_u32(block, LAST_WORD) == 0,
        Version::Two => is_whole(block0::read_header(block).timeout),
    }
}

// The label words, put at the start of words that are lent; those behind them stay.
fn load_words(block: &[u8], from: Version, words: &mut [u32])
    requires { (length block.now ≡ block_size) × (length words.old ≡ places One) }
    ensures { words.new ≡ labels_by from block.now ++ drop (places from) words.old }
{
    let count = block0::word_count(from);
    block0::read_labels(block, from, &mut words[0..count]);
}

// Block 0 with as many of these words as the version has.
fn write_words(block: &mut [u8], to: Version, h: Header, words: &[u32])
    requires { (length block.old ≡ block_size) × (length words.now ≡ places One) }
    ensures { block.new ≡ block_by to h (take (places to) words.now) }
{
    let count = block0::word_count(to);
    block0::write_block0(block, to, h, &words[0..count]);
}

// Block 0 in the other version, by way of words that are lent, all free.
fn move_by(block: &[u8], from: Version, moved: &mut [u8], words: &mut [u32])
    requires { (length block.now ≡ block_size) × (length moved.old ≡ block_size) × (words.old ≡ replicate (places One) 0) }
    ensures { moved.new ≡ block_by (other from) (header_moved from (header_by from block.now)) (list_moved from (labels_by from block.now)) }
{
    let h = block0::read_version(block, from);
    let timeout = move_timeout(from, h.timeout);
    load_words(block, from, words);
    write_words(moved, other_version(from), with_timeout(h, timeout), words);
}

// Block 0 in the other version.
fn move_block0(block: &[u8], from: Version, moved: &mut [u8])
    requires { (length block.now ≡ block_size) × (length moved.old ≡ block_size) }
    ensures { moved.new ≡ block_by (other from) (header_moved from (header_by from block.now)) (list_moved from (labels_by from block.now)) }
{
    let mut words = [0u32; block0::MOST_WORDS];
    move_by(block, from, moved, &mut words);
}

// An image of a version moved to the other. Answers 12, 10 and 11 as restore's checks of that version give them, then
// 16, then 9; the output changes only where the answer is 0, and then no byte behind the image.
fn convert(image: &[u8], from: Version, out: &mut [u8]) -> Result<(), ConversionFault>
    ensures { converted result out.new ≡ convert_of from image.now out.old }
{
    image::check_version(image, from)?;
    if !is_movable(&image[0..block::BLOCK_SIZE], from) {
        return Err(ConversionFault::Immovable);
    }
    if out.len() < image::IMAGE_SIZE {
        return Err(ConversionFault::NoRoom);
    }
    octets::copy_to(out, 0, image);
    move_block0(
        &image[0..block::BLOCK_SIZE],
        from,
        &mut out[0..block::BLOCK_SIZE],
    );
    Ok(())
}

// Version 1 to version 2: 16 where the last of the 120 label words is in use.
pub fn forward(image: &[u8], out: &mut [u8]) -> Result<(), ConversionFault>
    ensures { converted result out.new ≡ convert_of One image.now out.old }
{
    convert(image, Version::One, out)
}

// Version 2 to version 1: 16 where the timeout is not whole seconds up to 65,535.
pub fn back(image: &[u8], out: &mut [u8]) -> Result<(), ConversionFault>
    ensures { converted result out.new ≡ convert_of Two image.now out.old }
{
    convert(image, Version::Two, out)
}
