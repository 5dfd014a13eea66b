// The stored image: 68 blocks of 512 bytes. Block 0 holds the session's numbers and label words, blocks 1 to 64 are
// slots of a ring. Behind them stand the further blocks: block 65 holds the IDs of open Requests, blocks 66 and 67 the
// index of prefixes.
#![tactic(auto)]

ghost use Rattle.std.specs.Prelude.{◌+◌, ◌-◌, ◌*◌, ◌%◌, ◌≤◌, ◌<◌, ◌≡◌, length, get_or};
ghost use Rattle.block.specs.Check.{block_size};
ghost use Rattle.label_list.specs.Word.{word_count};
ghost use Rattle.word_block.specs.Layout.{place_count, word_block, no_words};
ghost use Rattle.fec_index.specs.Entries.{entry_count};
ghost use Rattle.image.specs.Sizes.{block_count, image_size, block, with_block, blocks_from, cleared};
ghost use Rattle.image.specs.State.{entry_block, stored_ids, decode, stored_index};
ghost use Rattle.image.specs.Verdict.{verdict_number, verdict_block};

use block0::{Header, Version};
use ft_number::FtNumber;

mod counting;
mod events;
mod extending;
mod held;
mod judging;
mod storing;

pub use counting::counts_of;
pub use events::{format, free_unprotected, has_unprotected, release};
pub use extending::extend;
pub use held::{held_kind, held_label, held_message, held_start};
pub use judging::{check_image, check_version};
pub use storing::{store_block0, store_entry, store_header, store_id, store_label, store_slot};

// What restore's checks find wrong: the size, or a block or a field of it, with the block's number.
#[derive(Clone, Copy)]
pub enum ImageFault {
    WrongSize,
    BadBlock(usize),
    BadField(usize),
}

// What restore's checks say of one block, of which the verdict is the first fault; a slot that is not live is idle.
#[derive(Clone, Copy)]
pub enum Judgement {
    Good,
    BadCheck,
    BadFields,
    Idle,
}

// The numbers of a sound image, its messages held, those of them pended, and its label words in use.
#[derive(Clone, Copy)]
pub struct Counts {
    pub released: FtNumber,
    pub issued: FtNumber,
    pub secured: FtNumber,
    pub held: u16,
    pub pended: u16,
    pub labels: usize,
}

// The slots of the ring; the first of the further blocks behind them, the one of the IDs, and the first one of the
// index; how many these are; the blocks of the image; its size.
pub const SLOT_COUNT: usize = block0::SLOT_COUNT as usize;

pub const REQUEST_BLOCK: usize = 1 + SLOT_COUNT;

const INDEX_BLOCK: usize = REQUEST_BLOCK + 1;

const FURTHER_COUNT: usize = 3;

pub const BLOCK_COUNT: usize = REQUEST_BLOCK + FURTHER_COUNT;

pub const IMAGE_SIZE: usize = BLOCK_COUNT * block::BLOCK_SIZE;

// The paper's number of a verdict.
pub fn verdict_number(v: Result<(), ImageFault>) -> u32
    ensures { result ≡ verdict_number v }
{
    match v {
        Ok(()) => 0,
        Err(ImageFault::WrongSize) => 12,
        Err(ImageFault::BadBlock(_)) => 10,
        Err(ImageFault::BadField(_)) => 11,
    }
}

// The block that a verdict names; 0 where none applies.
pub fn verdict_block(v: Result<(), ImageFault>) -> usize
    ensures { result ≡ verdict_block v }
{
    match v {
        Ok(()) => 0,
        Err(ImageFault::WrongSize) => 0,
        Err(ImageFault::BadBlock(b)) => b,
        Err(ImageFault::BadField(b)) => b,
    }
}

fn wide(x: u16) -> usize
    ensures { (result ≡ x) × (result < 65536) }
{
    x as usize
}

// Block b, as that very part of the image.
fn block_at(image: &[u8], b: usize) -> &[u8]
    requires { (length image.now ≡ image_size) × (b < block_count) }
    ensures result_value { (result.now ≡ block image.now b) × (length result.now ≡ block_size) }
    ensures place { (result.ref_ptr.0 ≡ image.entry.ref_ptr.0) × (result.ref_ptr.1 ≡ b * block_size + image.entry.ref_ptr.1) }
{
    let start = b * block::BLOCK_SIZE;
    let end = start + block::BLOCK_SIZE;
    &image[start..end]
}

// The numbers of block 0.
pub fn header_of(image: &[u8]) -> Header
    requires { length image.now ≡ image_size }
    ensures { result ≡ (decode image.now).header }
{
    block0::read_header(block_at(image, 0))
}

// The label words of block 0.
pub fn labels_of(image: &[u8], words: &mut [u32])
    requires { (length image.now ≡ image_size) × (length words.old ≡ word_count) }
    ensures { words.new ≡ (decode image.now).labels }
{
    block0::read_labels(block_at(image, 0), Version::Two, words)
}

// The label word at a place.
pub fn label_at(image: &[u8], place: usize) -> u32
    requires { (length image.now ≡ image_size) × (place < word_count) }
    ensures { result ≡ get_or (decode image.now).labels place 0 }
{
    block0::read_label(block_at(image, 0), place)
}

// The IDs that block 65 bears, those that count and those that do not.
pub fn ids_of(image: &[u8], ids: &mut [u32])
    requires { (length image.now ≡ image_size) × (length ids.old ≡ place_count) }
    ensures { ids.new ≡ stored_ids image.now }
{
    word_block::read_words(block_at(image, REQUEST_BLOCK), ids)
}

// The ID at a place; it counts where the label word there is an open Request's.
pub fn id_at(image: &[u8], place: usize) -> u32
    requires { (length image.now ≡ image_size) × (place < word_count) }
    ensures { result ≡ get_or (stored_ids image.now) place 0 }
{
    word_block::read_word(block_at(image, REQUEST_BLOCK), place)
}

// The entries that blocks 66 and 67 bear, those that count and those that do not.
pub fn index_of(image: &[u8], entries: &mut [u64])
    requires { (length image.now ≡ image_size) × (length entries.old ≡ place_count) }
    ensures { entries.new ≡ stored_index image.now }
{
    fec_index::read_entries(
        block_at(image, INDEX_BLOCK),
        &mut entries[0..fec_index::ENTRY_COUNT],
    );
    let end = word_block::PLACE_COUNT;
    fec_index::read_entries(
        block_at(image, INDEX_BLOCK + 1),
        &mut entries[fec_index::ENTRY_COUNT..end],
    );
}

// The block of the index that has the entry of a place. Compared, not divided: the boot image has no divide routine.
fn entry_block(place: usize) -> usize
    requires { place < place_count }
    ensures { result ≡ entry_block place }
{
    if place < fec_index::ENTRY_COUNT {
        return INDEX_BLOCK;
    }
    INDEX_BLOCK + 1
}

// The place of that entry in its block.
fn place_in_block(place: usize) -> usize
    requires { place < place_count }
    ensures { result ≡ place % entry_count }
{
    if place < fec_index::ENTRY_COUNT {
        return place;
    }
    place - fec_index::ENTRY_COUNT
}

// The entry at a place; it counts where the label word there lists a label.
pub fn entry_at(image: &[u8], place: usize) -> u64
    requires { (length image.now ≡ image_size) × (place < place_count) }
    ensures { result ≡ get_or (stored_index image.now) place 0 }
{
    fec_index::read_entry(block_at(image, entry_block(place)), place_in_block(place))
}

// Stores a block with no words; every other block stays.
fn clear_block(image: &mut [u8], b: usize)
    requires { (length image.old ≡ image_size) × (b < block_count) }
    ensures { image.new ≡ with_block image.old b (word_block no_words) }
{
    let start = b * block::BLOCK_SIZE;
    word_block::write_none(&mut image[start..start + block::BLOCK_SIZE]);
}

// Stores the blocks from one on with no words; every block before it stays.
fn clear_from(image: &mut [u8], first: usize)
    requires { (length image.old ≡ image_size) × (first ≤ block_count) }
    ensures { image.new ≡ cleared image.old (blocks_from first (block_count - first)) }
{
    for b in first..BLOCK_COUNT {
        clear_block(image, b);
    }
}
