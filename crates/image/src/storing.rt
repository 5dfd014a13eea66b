// The stages of storing: a slot, a place of a further block, then block 0. Each writes one block.
ghost use Rattle.std.specs.Prelude.{◌+◌, ◌*◌, ◌≤◌, ◌<◌, ◌≡◌, length, set};
ghost use Rattle.label_list.specs.Word.{word_count};
ghost use Rattle.word_block.specs.Layout.{place_count};
ghost use Rattle.block0.specs.Layout.{slot_count};
ghost use Rattle.message.specs.Storable.{longest};
ghost use Rattle.message.specs.Submission.{submission_of};
ghost use Rattle.image.specs.Sizes.{image_size, block};
ghost use Rattle.image.specs.State.{decode, store_slot, store_id, store_entry, store0};

use block0::{Header, Version};
use ft_number::MessageId;
use message::Kind;

// First stage: stores a message that Submit takes in slot k, with its kind and label; every other block stays.
pub fn store_slot(image: &mut [u8], k: usize, m: &[u8], kind: Kind, label: u32)
    requires { (length image.old ≡ image_size) × (k < slot_count) × (length m.now ≤ longest) × (submission_of m.now ≡ Ok (kind, label)) }
    ensures { image.new ≡ store_slot image.old k m.now }
{
    let start = (k + 1) * block::BLOCK_SIZE;
    slot::write_slot(&mut image[start..start + block::BLOCK_SIZE], m, kind, label);
}

// Second stage: stores the ID of a Request at its place of block 65; every other block stays.
pub fn store_id(image: &mut [u8], place: usize, id: MessageId)
    requires { (length image.old ≡ image_size) × (place < word_count) }
    ensures { image.new ≡ store_id image.old place id }
{
    let start = crate::REQUEST_BLOCK * block::BLOCK_SIZE;
    word_block::write_word(&mut image[start..start + block::BLOCK_SIZE], place, id.0);
}

// Second stage too: stores the entry of a label at its place of block 66 or 67; every other block stays.
pub fn store_entry(image: &mut [u8], place: usize, entry: u64)
    requires { (length image.old ≡ image_size) × (place < place_count) }
    ensures { image.new ≡ store_entry image.old place entry }
{
    let start = crate::entry_block(place) * block::BLOCK_SIZE;
    fec_index::write_entry(
        &mut image[start..start + block::BLOCK_SIZE],
        crate::place_in_block(place),
        entry,
    );
}

// Last stage: stores block 0; every other block stays.
pub fn store_block0(image: &mut [u8], h: Header, labels: &[u32])
    requires { (length image.old ≡ image_size) × (length labels.now ≡ word_count) }
    ensures { image.new ≡ store0 image.old h labels.now }
{
    block0::write_block0(&mut image[0..block::BLOCK_SIZE], Version::Two, h, labels);
}

// The last stage where the label words stay.
pub fn store_header(image: &mut [u8], h: Header)
    requires { length image.old ≡ image_size }
    ensures { image.new ≡ store0 image.old h (decode image.old).labels }
{
    block0::write_header(&mut image[0..block::BLOCK_SIZE], h);
}

// The last stage where one label word changes.
pub fn store_label(image: &mut [u8], h: Header, place: usize, word: u32)
    requires { (length image.old ≡ image_size) × (place < word_count) }
    ensures { image.new ≡ store0 image.old h (set (decode image.old).labels place word) }
{
    block0::write_label(&mut image[0..block::BLOCK_SIZE], h, place, word);
}
