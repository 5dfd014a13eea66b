// Blocks 66 and 67 of the stored image: the index of prefixes, each entry at the place of its label word. An entry
// counts only where that word lists a label; it stays when the word is freed.
#![tactic(auto)]

ghost use Rattle.std.specs.Prelude.{◌+◌, ◌*◌, ◌≤◌, ◌<◌, ◌≡◌, length, get_or};
ghost use Rattle.octets.specs.Pick.{pick};
ghost use Rattle.block.specs.Check.{block_size};
ghost use Rattle.block.specs.Run.{words_at};
ghost use Rattle.label_list.specs.Word.{lists_label};
ghost use Rattle.tlv.specs.Element.{masked_to};
ghost use Rattle.word_block.specs.Layout.{block_words, word_block};
ghost use Rattle.fec_index.specs.Entries.{entry_count, entries_of, pair_put, entry_ok, entries_ok};

// The places of entries in a block.
pub const ENTRY_COUNT: usize = 60;

// The numbers of 32 bits.
const HALF: u64 = 4294967296;

// The entry at a place of a block.
pub fn read_entry(block: &[u8], place: usize) -> u64
    requires { (length block.now ≡ block_size) × (place < entry_count) }
    ensures { result ≡ get_or (entries_of block.now) place 0 }
{
    let upper = word_block::read_word(block, place * 2) as u64;
    let lower = word_block::read_word(block, place * 2 + 1) as u64;
    upper * HALF + lower
}

// The entries of a block, those that count and those that do not.
pub fn read_entries(block: &[u8], entries: &mut [u64])
    requires { (length block.now ≡ block_size) × (length entries.old ≡ entry_count) }
    ensures { entries.new ≡ entries_of block.now }
{
    for (i, entry) in entries.iter_mut().enumerate() {
        *entry = read_entry(block, i);
    }
}

// Writes one entry, the zeros behind the places and the check: the other entries stay.
pub fn write_entry(block: &mut [u8], place: usize, entry: u64)
    requires { (length block.old ≡ block_size) × (place < entry_count) }
    ensures { block.new ≡ word_block (pair_put (block_words block.old) place entry) }
{
    octets::put_u32(block, place * 8, (entry / HALF) as u32);
    word_block::write_word(block, place * 2 + 1, (entry % HALF) as u32);
}

// Whether an entry is right: zeros, or 1, the length, two zeros, and the prefix with zeros past its length.
#[tactic(auto, unfolding(crate::specs::Entries::entry_ok, crate::specs::Entries::is_entry))]
fn entry_is_valid(entry: u64) -> bool
    ensures { result ≡ entry_ok entry }
{
    if entry == 0 {
        return true;
    }
    let upper = (entry / HALF) as u32;
    if upper / 16777216 != 1 {
        return false;
    }
    let length = upper / 65536 % 256;
    if 32 < length {
        return false;
    }
    if upper % 65536 != 0 {
        return false;
    }
    let prefix = (entry % HALF) as u32;
    tlv::element::masked_to(length, prefix) == prefix
}

// Whether the entry beside a word is right, where it counts.
#[tactic(auto, using(crate::proofs::Counted::none_right))]
fn place_is_valid(word: u32, entry: u64) -> bool
    ensures { result ≡ entry_ok (pick (lists_label word) entry 0) }
{
    !label_list::lists_label(word) || entry_is_valid(entry)
}

// Whether the fields are right beside the label words that stand in some bytes: zeros behind the places, and each entry
// that counts. Where all of these words are free no entry is read. The check is not looked at.
pub fn entries_are_valid(block: &[u8], labels: &[u8], at: usize, count: usize) -> bool
    requires { (length block.now ≡ block_size) × (count ≤ entry_count) × (at + count * 4 ≤ length labels.now) }
    ensures { result ≡ entries_ok (words_at count labels.now at) block.now }
{
    if !word_block::rest_is_zero(block) {
        return false;
    }
    let end = at + count * 4;
    if block::zeros::all_zero(&labels[at..end]) {
        return true;
    }
    for i in 0..count {
        if !place_is_valid(octets::get_u32(labels, at + i * 4), read_entry(block, i)) {
            return false;
        }
    }
    true
}
