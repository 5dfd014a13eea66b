// The open Requests among the label words, and their IDs in the list beside them.
ghost use Rattle.std.specs.Prelude.{◌∷◌, ◌≡◌};
ghost use Rattle.label_list.specs.Marks.{IdsTell};
ghost use Rattle.label_list.specs.Requests.{open_at, once_word, once_of};

use crate::word::REQUEST_WORD;
use ft_number::MessageId;

// The place of the open Request with that ID.
pub fn find_request(words: &[u32], ids: &[u32], id: MessageId) -> Option<usize>
    ensures { result ≡ open_at id words.now ids.now }
{
    words
        .iter()
        .zip(ids)
        .position(|(word, other)| *word == REQUEST_WORD && *other == id.0)
}

// Whether an ID stands in none of the later open Requests, if its word is an open Request's; it is marked then. Only where its mark is set already is it sought.
fn mark_request(word: u32, id: u32, words: &[u32], ids: &[u32], marks: &mut [u8]) -> bool
    requires { IdsTell words.now ids.now marks.old }
    ensures { (result ≡ once_word word id words.now ids.now) × IdsTell (word ∷ words.now) (id ∷ ids.now) marks.new }
{
    if word != REQUEST_WORD {
        return true;
    }
    let place = (id % 256) as usize;
    if marks[place] == 0 {
        marks[place] = 1;
        return true;
    }
    find_request(words, ids, MessageId(id)).is_none()
}

// Whether no two open Requests have one ID: one pass from the last word that has an entry in the list of IDs to the first.
pub fn ids_stand_once(words: &[u32], ids: &[u32]) -> bool
    ensures { result ≡ once_of words.now ids.now }
{
    let mut marks = [0u8; 256];
    for i in (0..words.len().min(ids.len())).rev() {
        if !mark_request(words[i], ids[i], &words[i + 1..], &ids[i + 1..], &mut marks) {
            return false;
        }
    }
    true
}
