// What a stored image says: the check of a block, the label words, the open Requests and the prefixes; and an image of an earlier release extended.
ghost use Rattle.std.specs.Prelude.{◌≡◌};
ghost use Rattle.block.specs.Check.{block_check_of};
ghost use Rattle.image.specs.Extend.{extend_verdict, extend_of};
ghost use Rattle.image_numbers.specs.Stored.{check_number, label_at, open_request, no_prefix, prefix_at, extended_numbers};

use crate::{ExtendedNumbers, PrefixNumbers, RequestNumbers};

// What stands for no number: no check and no label word is so large.
const NONE: u32 = 4294967295;

// The check of a block's first 508 bytes; 0xFFFFFFFF where there are fewer.
pub fn block_check(block: &[u8]) -> u32
    ensures { result ≡ check_number (block_check_of block.now) }
{
    match block::block_check(block) {
        Some(c) => c,
        None => NONE,
    }
}

// A label word of an image that passes restore's checks; 0xFFFFFFFF where they refuse, or there is no such place.
pub fn label(image: &[u8], place: u32) -> u32
    ensures { result ≡ label_at image.now place }
{
    if image::verdict_number(image::check_image(image)) != 0 {
        return NONE;
    }
    if label_list::WORD_COUNT <= place as usize {
        return NONE;
    }
    image::label_at(image, place as usize)
}

// The Request that is open at a place of an image that passes restore's checks, with its message ID; 0 and 0 where they refuse, there is no such place,
// or its word is no open Request's.
pub fn request_at(image: &[u8], place: u32) -> RequestNumbers
    ensures { result ≡ open_request image.now place }
{
    // What stands for no word is no open Request's word.
    if label(image, place) != label_list::REQUEST_WORD {
        return RequestNumbers { isopen: 0, id: 0 };
    }
    RequestNumbers {
        isopen: 1,
        id: image::id_at(image, place as usize),
    }
}

fn no_prefix() -> PrefixNumbers
    ensures { result ≡ no_prefix }
{
    PrefixNumbers {
        indexed: 0,
        length: 0,
        prefix: 0,
    }
}

// The prefix of the label that the word at a place lists, of an image that passes restore's checks; none where they refuse, there is no such place, its word
// lists no label, or its FEC is not indexed.
pub fn prefix_at(image: &[u8], place: u32) -> PrefixNumbers
    ensures { result ≡ prefix_at image.now place }
{
    // What stands for no word lists no label.
    if !label_list::lists_label(label(image, place)) {
        return no_prefix();
    }
    let entry = image::entry_at(image, place as usize);
    if entry == 0 {
        return no_prefix();
    }
    PrefixNumbers {
        indexed: 1,
        length: (entry / 4294967296 / 65536 % 256) as u32,
        prefix: (entry % 4294967296) as u32,
    }
}

// An image that an earlier release stored, at the start of a buffer of this release's size, with the blocks made that it lacks. 12, and nothing changed,
// where the buffer has another size, or so many bytes are no earlier release's image.
pub fn extend(image: &mut [u8], stored: usize) -> ExtendedNumbers
    ensures { (result ≡ extended_numbers (extend_verdict image.old stored) stored) × (image.new ≡ extend_of image.old stored) }
{
    if image::verdict_number(image::extend(image, stored)) != 0 {
        return ExtendedNumbers {
            answer: 12,
            further: 0,
        };
    }
    // Of 65 blocks all further ones are made, of 66 those behind block 65.
    if stored <= image::REQUEST_BLOCK * block::BLOCK_SIZE {
        return ExtendedNumbers {
            answer: 0,
            further: 7,
        };
    }
    ExtendedNumbers {
        answer: 0,
        further: 6,
    }
}
