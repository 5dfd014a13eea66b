// A further block of the stored image: 120 words of 32 bits, zeros, and the check. Which of its words count, and what
// they have to be, is its users' to say.
#![tactic(auto)]

ghost use Rattle.std.specs.Prelude.{◌<◌, ◌≡◌, length, get_or, set};
ghost use Rattle.block.specs.Check.{block_size, sound};
ghost use Rattle.word_block.specs.Layout.{place_count, block_words, word_block, no_words, rest_zero, is_empty};

// The places of words.
pub const PLACE_COUNT: usize = 120;

// Where the zeros behind the words begin.
const WORDS_END: usize = PLACE_COUNT * 4;

// The check of a block of zeros: A is 1, and B is 1 for each of the 254 words.
const NONE_CHECK: u32 = 65536 + 254;

// The words of a block, those that count and those that do not.
pub fn read_words(block: &[u8], words: &mut [u32])
    requires { (length block.now ≡ block_size) × (length words.old ≡ place_count) }
    ensures { words.new ≡ block_words block.now }
{
    block::words::load_words(block, 0, words)
}

// The word at a place of a block.
pub fn read_word(block: &[u8], place: usize) -> u32
    requires { (length block.now ≡ block_size) × (place < place_count) }
    ensures { result ≡ get_or (block_words block.now) place 0 }
{
    octets::get_u32(block, place * 4)
}

// Writes one word, the zeros behind the words and the check: the other words stay.
pub fn write_word(block: &mut [u8], place: usize, word: u32)
    requires { (length block.old ≡ block_size) × (place < place_count) }
    ensures { block.new ≡ word_block (set (block_words block.old) place word) }
{
    octets::put_u32(block, place * 4, word);
    octets::zero_to(block, WORDS_END, block::CHECK_AT - WORDS_END);
    block::seal(block);
}

// Writes a block of no words: zeros and their check.
pub fn write_none(block: &mut [u8])
    requires { length block.old ≡ block_size }
    ensures { block.new ≡ word_block no_words }
{
    octets::zero_to(block, 0, block::CHECK_AT);
    block::seal_before(block, 0);
}

// Whether a block is one of no words: zeros and their check, which is known. A block of another check is not looked at.
pub fn is_empty(block: &[u8]) -> bool
    requires { length block.now ≡ block_size }
    ensures { result ≡ is_empty block.now }
{
    if octets::get_u32(block, block::CHECK_AT) != NONE_CHECK {
        return false;
    }
    block::zeros::all_zero(&block[0..block::CHECK_AT])
}

// Whether a block has its check. Of a block of no words it is known, and nothing is summed.
pub fn is_sound(block: &[u8]) -> bool
    requires { length block.now ≡ block_size }
    ensures { result ≡ sound block.now }
{
    if is_empty(block) {
        return true;
    }
    block::is_sound(block)
}

// Whether the bytes behind the words are zero. Where no word counts that is all that the fields have to be.
pub fn rest_is_zero(block: &[u8]) -> bool
    requires { length block.now ≡ block_size }
    ensures { result ≡ rest_zero block.now }
{
    block::zeros::all_zero(&block[WORDS_END..block::CHECK_AT])
}
