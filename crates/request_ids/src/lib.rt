// Block 65 of the stored image: the message IDs of open Requests, each at the place of its label word. An ID counts
// only where that word is an open Request's; it stays when the word is freed. A place that has no label word holds
// anything.
#![tactic(auto)]

ghost use Rattle.std.specs.Prelude.{◌≡◌, length};
ghost use Rattle.block.specs.Check.{block_size};
ghost use Rattle.request_ids.specs.Fields.{ids_ok};

// Whether the fields are right beside these label words: zeros behind the IDs, and no two open Requests with one ID.
// The check is not looked at, nor is an ID that has no word.
pub fn ids_are_valid(block: &[u8], words: &[u32]) -> bool
    requires { length block.now ≡ block_size }
    ensures { result ≡ ids_ok words.now block.now }
{
    if !word_block::rest_is_zero(block) {
        return false;
    }
    let mut ids = [0u32; word_block::PLACE_COUNT];
    word_block::read_words(block, &mut ids);
    label_list::ids_stand_once(words, &ids)
}
