// Block 0 written: whole in either version; in version 2 also its fields alone, with one label word, and released.
ghost use Rattle.std.specs.Prelude.{◌%◌, ◌<◌, ◌≡◌, length, set};
ghost use Rattle.octets.specs.Laid.{laid};
ghost use Rattle.block.specs.Check.{block_size};
ghost use Rattle.block.specs.Run.{spelled};
ghost use Rattle.label_list.specs.Word.{word_count};
ghost use Rattle.block0.specs.Layout.{early_timeout, late_timeout, number_widths, rest_widths, late_widths, places, widths, number_values, rest_values, values, labels_of, block_by, block0, released_header, no_labels};

use crate::{Header, LABELS_AT, Version};
use ft_number::FtNumber;

fn put_numbers(block: &mut [u8], version: Version, h: Header)
    requires { length block.old ≡ block_size }
    ensures { block.new ≡ laid block.old 0 (spelled number_widths (number_values version h)) }
{
    octets::put_u32(block, 0, crate::version_number(version));
    octets::put_u32(block, 4, h.released.0);
    octets::put_u32(block, 8, h.issued.0);
    octets::put_u32(block, 12, h.secured.0);
}

// The fields behind them; what bytes 20 and 21 say is given.
fn put_rest(block: &mut [u8], h: Header, early: u16)
    requires { length block.old ≡ block_size }
    ensures { block.new ≡ laid block.old 16 (spelled rest_widths (rest_values h early)) }
{
    octets::put_u16(block, 16, h.first);
    octets::put_u16(block, 18, h.held);
    octets::put_u16(block, 20, early);
    octets::put_u8(block, 22, h.kept);
    octets::put_u8(block, 23, h.marks);
    octets::put_u16(block, 24, h.keepalive);
    octets::put_u16(block, 26, h.maxpdu);
}

// What bytes 20 and 21 say: version 1's timeout, or zero.
fn early_of(version: Version, timeout: u32) -> u16
    ensures { result ≡ early_timeout version timeout % 65536 }
{
    match version {
        Version::One => (timeout % 65536) as u16,
        Version::Two => 0,
    }
}

// Version 2's timeout.
fn put_late(block: &mut [u8], version: Version, timeout: u32)
    requires { length block.old ≡ block_size }
    ensures { block.new ≡ laid block.old 28 (spelled (late_widths version) (late_timeout version timeout)) }
{
    match version {
        Version::One => {}
        Version::Two => octets::put_u32(block, 28, timeout),
    }
}

// The fields, from the version to the label words.
fn put_fields(block: &mut [u8], version: Version, h: Header)
    requires { length block.old ≡ block_size }
    ensures { block.new ≡ laid block.old 0 (spelled (widths version) (values version h)) }
{
    put_numbers(block, version, h);
    put_rest(block, h, early_of(version, h.timeout));
    put_late(block, version, h.timeout);
}

// Writes block 0 whole: version, fields, the label words and the check.
pub fn write_block0(block: &mut [u8], version: Version, h: Header, labels: &[u32])
    requires { (length block.old ≡ block_size) × (length labels.now ≡ places version) }
    ensures { block.new ≡ block_by version h labels.now }
{
    put_fields(block, version, h);
    block::words::store_words(block, crate::labels_at(version), labels);
    block::seal(block);
}

// Writes the fields and the check: the label words stay.
pub fn write_header(block: &mut [u8], h: Header)
    requires { length block.old ≡ block_size }
    ensures { block.new ≡ block0 h (labels_of block.old) }
{
    put_fields(block, Version::Two, h);
    block::seal(block);
}

// Writes the fields, one label word and the check: the other label words stay.
pub fn write_label(block: &mut [u8], h: Header, place: usize, word: u32)
    requires { (length block.old ≡ block_size) × (place < word_count) }
    ensures { block.new ≡ block0 h (set (labels_of block.old) place word) }
{
    put_fields(block, Version::Two, h);
    octets::put_u32(block, LABELS_AT + place * 4, word);
    block::seal(block);
}

// Writes a released block 0: every number 0, kept 0, every label word free. So only the fields are summed for the check.
pub fn write_released(block: &mut [u8])
    requires { length block.old ≡ block_size }
    ensures { block.new ≡ block0 released_header no_labels }
{
    let h = Header {
        released: FtNumber(0),
        issued: FtNumber(0),
        secured: FtNumber(0),
        first: 0,
        held: 0,
        timeout: 0,
        kept: 0,
        marks: 0,
        keepalive: 0,
        maxpdu: 0,
    };
    put_fields(block, Version::Two, h);
    octets::zero_to(block, LABELS_AT, block::CHECK_AT - LABELS_AT);
    block::seal_before(block, LABELS_AT);
}
