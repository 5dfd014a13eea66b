// Block 0 of the stored image: the session's numbers and its label words, in the versions 1 and 2 of the image. Only the converter reads version 1.
#![tactic(auto)]

ghost use Rattle.std.specs.Prelude.{◌+◌, ◌*◌, ◌≤◌, ◌<◌, ◌≡◌, length, get_or};
ghost use Rattle.octets.specs.Be.{be_at};
ghost use Rattle.block.specs.Check.{block_size, check_at};
ghost use Rattle.block.specs.Run.{words_at};
ghost use Rattle.ft_number.specs.Circle.{steps_of};
ghost use Rattle.label_list.specs.Find.{any};
ghost use Rattle.label_list.specs.Valid.{valid_of};
ghost use Rattle.label_list.specs.Word.{word_count, request_code};
ghost use Rattle.block0.specs.Coded.{has_code, unprotected};
ghost use Rattle.block0.specs.Fields.{at_most, header_ok, early_ok, fields_by};
ghost use Rattle.block0.specs.Layout.{version_number, labels_at, places, header_by, labels_by, header_of, labels_of};
ghost use Rattle.block0.specs.Updates.{header_timeout};

use ft_number::FtNumber;

mod writing;

pub use writing::{write_block0, write_header, write_label, write_released};

// The version of the image. They differ in block 0 alone: where the agreed timeout stands, in which unit, and how many label words there are.
#[derive(Clone, Copy)]
pub enum Version {
    One = 1,
    Two = 2,
}

// What block 0 says beside its label words. The timeout is in seconds in version 1, in milliseconds in version 2.
#[derive(Clone, Copy, PartialEq, Eq)]
pub struct Header {
    pub released: FtNumber,
    pub issued: FtNumber,
    pub secured: FtNumber,
    pub first: u16,
    pub held: u16,
    pub timeout: u32,
    pub kept: u8,
    pub marks: u8,
    pub keepalive: u16,
    pub maxpdu: u16,
}

// The slots of the ring.
pub const SLOT_COUNT: u16 = 64;

// The label words of version 1, of which version 2 has one fewer.
pub const MOST_WORDS: usize = 120;

// Where the label words of version 2 start.
const LABELS_AT: usize = 32;

// The number that names a version.
fn version_number(version: Version) -> u32
    ensures { result ≡ version_number version }
{
    version as u32
}

// Where the label words start. They end where the check begins.
pub fn labels_at(version: Version) -> usize
    ensures { (result ≡ labels_at version) × (result + places version * 4 ≡ check_at) }
{
    match version {
        Version::One => 28,
        Version::Two => LABELS_AT,
    }
}

// How many label words there are.
pub fn word_count(version: Version) -> usize
    ensures { (result ≡ places version) × (result ≤ 120) }
{
    (block::CHECK_AT - labels_at(version)) / 4
}

// The numbers of block 0 with a timeout that is given: all others stand in one place in either version.
#[tactic(auto, unfolding(crate::specs::Layout::header_by))]
fn read_with(block: &[u8], timeout: u32) -> Header
    requires { length block.now ≡ block_size }
    ensures { result ≡ header_timeout (header_of block.now) timeout }
{
    Header {
        released: FtNumber(octets::get_u32(block, 4)),
        issued: FtNumber(octets::get_u32(block, 8)),
        secured: FtNumber(octets::get_u32(block, 12)),
        first: octets::get_u16(block, 16),
        held: octets::get_u16(block, 18),
        timeout,
        kept: octets::get_u8(block, 22),
        marks: octets::get_u8(block, 23),
        keepalive: octets::get_u16(block, 24),
        maxpdu: octets::get_u16(block, 26),
    }
}

// The numbers of block 0, in version 2.
#[tactic(auto, unfolding(crate::specs::Layout::header_by))]
pub fn read_header(block: &[u8]) -> Header
    requires { length block.now ≡ block_size }
    ensures { result ≡ header_of block.now }
{
    read_with(block, octets::get_u32(block, 28))
}

// The agreed timeout, in the version's unit.
#[tactic(auto, unfolding(crate::specs::Layout::header_by))]
fn read_timeout(block: &[u8], version: Version) -> u32
    requires { length block.now ≡ block_size }
    ensures { result ≡ (header_by version block.now).timeout }
{
    match version {
        Version::One => octets::get_u16(block, 20) as u32,
        Version::Two => octets::get_u32(block, 28),
    }
}

// The numbers of block 0, in either version.
#[tactic(auto, unfolding(crate::specs::Layout::header_by))]
pub fn read_version(block: &[u8], version: Version) -> Header
    requires { length block.now ≡ block_size }
    ensures { result ≡ header_by version block.now }
{
    read_with(block, read_timeout(block, version))
}

// The label words of block 0.
#[tactic(auto, unfolding(crate::specs::Layout::labels_by))]
pub fn read_labels(block: &[u8], version: Version, words: &mut [u32])
    requires { (length block.now ≡ block_size) × (length words.old ≡ places version) }
    ensures { words.new ≡ labels_by version block.now }
{
    block::words::load_words(block, labels_at(version), words)
}

// The label word at a place of block 0, in version 2.
#[tactic(auto, unfolding(crate::specs::Layout::labels_by))]
pub fn read_label(block: &[u8], place: usize) -> u32
    requires { (length block.now ≡ block_size) × (place < word_count) }
    ensures { result ≡ get_or (labels_of block.now) place 0 }
{
    octets::get_u32(block, LABELS_AT + place * 4)
}

// R to I no longer than held, and I not zero unless R is.
fn issued_are_held(h: Header) -> bool
    ensures { result ≡ at_most h.held (steps_of h.released.0 h.issued.0) }
{
    ft_number::steps_between(h.released, h.issued).is_some_and(|n| n <= h.held as u32)
}

#[tactic(auto, unfolding(crate::specs::Fields::header_ok, crate::specs::Fields::marks_ok))]
fn header_is_valid(h: Header) -> bool
    ensures { result ≡ header_ok h }
{
    h.first < SLOT_COUNT
        && h.held <= SLOT_COUNT
        && h.kept <= 1
        && h.marks < 8
        && h.marks % 2 == 0
        && issued_are_held(h)
}

// Bytes 20 and 21, zero in version 2.
fn early_is_valid(block: &[u8], version: Version) -> bool
    requires { length block.now ≡ block_size }
    ensures { result ≡ early_ok version block.now }
{
    match version {
        Version::One => true,
        Version::Two => octets::get_u16(block, 20) == 0,
    }
}

// Whether the label words are right, read into words that are lent.
fn words_are_valid(block: &[u8], version: Version, words: &mut [u32]) -> bool
    requires { (length block.now ≡ block_size) × (length words.old ≡ places version) }
    ensures { result ≡ valid_of (labels_by version block.now) }
{
    read_labels(block, version, words);
    label_list::valid(words)
}

// Whether the label words are right. Where all are free they are not read one by one.
fn labels_are_valid(block: &[u8], version: Version) -> bool
    requires { length block.now ≡ block_size }
    ensures { result ≡ valid_of (labels_by version block.now) }
{
    let start = labels_at(version);
    if block::zeros::all_zero(&block[start..block::CHECK_AT]) {
        return true;
    }
    let mut words = [0u32; MOST_WORDS];
    let count = word_count(version);
    words_are_valid(block, version, &mut words[0..count])
}

// Whether the label word at an offset has a code. It shows in the second byte, which nearly every other word fails.
fn has_code_at(block: &[u8], at: usize, code: u8) -> bool
    requires { (length block.now ≡ block_size) × (at + 4 ≤ block_size) × (code < 16) }
    ensures { result ≡ has_code code (be_at 4 block.now at) }
{
    octets::get_u8(block, at + 1) / 16 == code
        && octets::get_u32(block, at) / label_list::LABEL_COUNT == code as u32
}

// Whether one of so many words from a place on has a code.
fn any_has_code(block: &[u8], start: usize, count: usize, code: u8) -> bool
    requires { (length block.now ≡ block_size) × (start + count * 4 ≤ block_size) × (code < 16) }
    ensures { result ≡ any (has_code code) (words_at count block.now start) }
{
    for i in 0..count {
        if has_code_at(block, start + i * 4, code) {
            return true;
        }
    }
    false
}

// Whether a label word has a code that is not 0. Where all words are free they are not read one by one.
fn has_code(block: &[u8], version: Version, code: u8) -> bool
    requires { (length block.now ≡ block_size) × (0 < code) × (code < 16) }
    ensures { result ≡ any (has_code code) (labels_by version block.now) }
{
    let start = labels_at(version);
    !block::zeros::all_zero(&block[start..block::CHECK_AT])
        && any_has_code(block, start, word_count(version), code)
}

// Whether a label is used without protection, in version 2.
pub fn has_unprotected(block: &[u8]) -> bool
    requires { length block.now ≡ block_size }
    ensures { result ≡ unprotected (labels_of block.now) }
{
    has_code(block, Version::Two, 6)
}

// Whether a label word has the code of an open Request.
pub fn has_requests(block: &[u8], version: Version) -> bool
    requires { length block.now ≡ block_size }
    ensures { result ≡ any (has_code request_code) (labels_by version block.now) }
{
    has_code(block, version, 7)
}

// The rules for the fields of a version: its number, in version 2 bytes 20 and 21 zero, first 0 to 63, held 0 to 64, kept 0 or 1, byte 23 no bit but 2
// and 4, R to I no longer than held, I not zero unless R is, the label words' rule, and with kept 0 bytes 4 to 507 zero. The check is not looked at.
pub fn block0_is_valid(block: &[u8], version: Version) -> bool
    requires { length block.now ≡ block_size }
    ensures { result ≡ fields_by version block.now }
{
    if octets::get_u32(block, 0) != version_number(version) {
        return false;
    }
    if !early_is_valid(block, version) {
        return false;
    }
    // What is judged of them stands in one place in either version.
    let h = read_header(block);
    if !header_is_valid(h) {
        return false;
    }
    // No label stands in zeros, so the words need no look of their own.
    if h.kept == 0 {
        return block::zeros::all_zero(&block[4..block::CHECK_AT]);
    }
    labels_are_valid(block, version)
}
