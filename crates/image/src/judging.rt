// Restore's checks: of block 0, the live slots and the further blocks, each by its check and then by its fields.
ghost use Rattle.std.specs.Prelude.{◌+◌, ◌-◌, ◌*◌, ◌≤◌, ◌<◌, ◌≡◌, eqb, length};
ghost use Rattle.octets.specs.Pick.{pick};
ghost use Rattle.block.specs.Check.{block_size};
ghost use Rattle.block0.specs.Layout.{places, labels_by};
ghost use Rattle.fec_index.specs.Entries.{entry_count};
ghost use Rattle.request_ids.specs.Fields.{ids_ok};
ghost use Rattle.image.specs.Ring.{ring};
ghost use Rattle.image.specs.Sizes.{request_block, further, block_count, image_size, block, block_of};
ghost use Rattle.image.specs.Verdict.{bytes_judged, slot_judged, fault_then, first_fault, further_ok, verdict_by, verdict};

use crate::ImageFault;
use block0::Version;
use slot::SlotFault;

// The bytes of the label words beside one block of the index.
const BESIDE_SIZE: usize = fec_index::ENTRY_COUNT * 4;

// The live slots in ring order: the check of each, then its fields.
fn scan_slots(image: &[u8], first: usize, held: usize) -> Result<(), ImageFault>
    requires { (length image.now ≡ image_size) × (first < 65536) × (held < 65536) }
    ensures { result ≡ first_fault (slot_judged image.now) (ring block_of first held) }
{
    for i in 0..held {
        let b = (first + i) % crate::SLOT_COUNT + 1;
        match slot::judge_slot(crate::block_at(image, b)) {
            Ok(()) => {}
            Err(SlotFault::BadCheck) => {
                return Err(ImageFault::BadBlock(b));
            }
            Err(SlotFault::BadFields) => {
                return Err(ImageFault::BadField(b));
            }
        }
    }
    Ok(())
}

// Whether block 65's fields are right beside the label words, read into words that are lent.
fn ids_are_valid(block: &[u8], zeroth: &[u8], version: Version, words: &mut [u32]) -> bool
    requires { (length block.now ≡ block_size) × (length zeroth.now ≡ block_size) × (length words.old ≡ places version) }
    ensures { result ≡ ids_ok (labels_by version zeroth.now) block.now }
{
    block0::read_labels(zeroth, version, words);
    request_ids::ids_are_valid(block, words)
}

// Whether block 65's fields are right beside the label words. These are read only where one of them has a Request's
// code.
fn requests_are_valid(image: &[u8], version: Version) -> bool
    requires { length image.now ≡ image_size }
    ensures { result ≡ ids_ok (labels_by version (block image.now 0)) (block image.now request_block) }
{
    let block = crate::block_at(image, crate::REQUEST_BLOCK);
    let zeroth = crate::block_at(image, 0);
    if !block0::has_requests(zeroth, version) {
        return word_block::rest_is_zero(block);
    }
    let mut words = [0u32; block0::MOST_WORDS];
    let count = block0::word_count(version);
    ids_are_valid(block, zeroth, version, &mut words[0..count])
}

// How many label words stand beside the places of block k of the index: in version 2 one fewer beside the last.
fn count_beside(version: Version, k: usize) -> usize
    requires { k < 2 }
    ensures { (result ≡ pick (eqb k 0) entry_count (places version - entry_count)) × (result ≤ entry_count) }
{
    if k == 0 {
        return fec_index::ENTRY_COUNT;
    }
    block0::word_count(version) - fec_index::ENTRY_COUNT
}

// Whether the fields of a block of the index are right beside the label words of its places.
fn index_is_valid(image: &[u8], version: Version, b: usize) -> bool
    requires { (length image.now ≡ image_size) × (request_block < b) × (b < block_count) }
    ensures { result ≡ further_ok (labels_by version (block image.now 0)) b (block image.now b) }
{
    let k = b - crate::INDEX_BLOCK;
    let start = block0::labels_at(version) + k * BESIDE_SIZE;
    fec_index::entries_are_valid(
        crate::block_at(image, b),
        crate::block_at(image, 0),
        start,
        count_beside(version, k),
    )
}

// Block 65: its check, then its fields.
fn judge_requests(image: &[u8], version: Version) -> Result<(), ImageFault>
    requires { length image.now ≡ image_size }
    ensures { result ≡ fault_then (bytes_judged version image.now request_block) request_block (Ok tt) }
{
    if !word_block::is_sound(crate::block_at(image, crate::REQUEST_BLOCK)) {
        return Err(ImageFault::BadBlock(crate::REQUEST_BLOCK));
    }
    if !requests_are_valid(image, version) {
        return Err(ImageFault::BadField(crate::REQUEST_BLOCK));
    }
    Ok(())
}

// A block of the index: its check, then its fields. An empty one is right beside any words, which are not looked at.
fn judge_index(image: &[u8], version: Version, b: usize) -> Result<(), ImageFault>
    requires { (length image.now ≡ image_size) × (request_block < b) × (b < block_count) }
    ensures { result ≡ fault_then (bytes_judged version image.now b) b (Ok tt) }
{
    let block = crate::block_at(image, b);
    if word_block::is_empty(block) {
        return Ok(());
    }
    if !block::is_sound(block) {
        return Err(ImageFault::BadBlock(b));
    }
    if !index_is_valid(image, version, b) {
        return Err(ImageFault::BadField(b));
    }
    Ok(())
}

// A further block.
fn judge_block(image: &[u8], version: Version, b: usize) -> Result<(), ImageFault>
    requires { (length image.now ≡ image_size) × (request_block ≤ b) × (b < block_count) }
    ensures { result ≡ fault_then (bytes_judged version image.now b) b (Ok tt) }
{
    if b == crate::REQUEST_BLOCK {
        return judge_requests(image, version);
    }
    judge_index(image, version, b)
}

// The further blocks, in their order.
fn judge_further(image: &[u8], version: Version) -> Result<(), ImageFault>
    requires { length image.now ≡ image_size }
    ensures { result ≡ first_fault (bytes_judged version image.now) further }
{
    for b in crate::REQUEST_BLOCK..crate::BLOCK_COUNT {
        judge_block(image, version, b)?;
    }
    Ok(())
}

// Restore's checks of any bytes, as an image of a version, in the paper's order: size (12), block 0's check (10), its
// fields (11), then each live slot in ring order, then each further block, check before fields. Slots that are not live
// are not looked at; each block is summed once, and after a fault none is read.
pub fn check_version(image: &[u8], version: Version) -> Result<(), ImageFault>
    ensures { result ≡ verdict_by version image.now }
{
    if image.len() != crate::IMAGE_SIZE {
        return Err(ImageFault::WrongSize);
    }
    let zeroth = crate::block_at(image, 0);
    if !block::is_sound(zeroth) {
        return Err(ImageFault::BadBlock(0));
    }
    if !block0::block0_is_valid(zeroth, version) {
        return Err(ImageFault::BadField(0));
    }
    let h = block0::read_header(zeroth);
    scan_slots(image, crate::wide(h.first), crate::wide(h.held))?;
    judge_further(image, version)
}

// Restore's checks: of an image of version 2.
pub fn check_image(image: &[u8]) -> Result<(), ImageFault>
    ensures { result ≡ verdict image.now }
{
    check_version(image, Version::Two)
}
