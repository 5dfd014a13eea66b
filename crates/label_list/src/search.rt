// Searches of the label words.
ghost use Rattle.std.specs.Prelude.{◌≡◌};
ghost use Rattle.label_list.specs.Find.{passes, bears_label, next_of, find_of, listed_count};
ghost use Rattle.label_list.specs.Word.{stands_for};

use crate::rules::needs_protection;
use crate::word::{LABEL_COUNT, on_side};
use crate::{Side, Wanted};

#[tactic(auto, unfolding(crate::specs::Word::is_free))]
fn is_wanted(wanted: Wanted, word: u32) -> bool
    ensures { result ≡ passes wanted word }
{
    match wanted {
        Wanted::Free => word == 0,
        Wanted::ProtectedOn(side) => needs_protection(side, word / LABEL_COUNT),
    }
}

// The first word that is wanted: a free one, or one of a code on a side that needs protection.
pub fn find(words: &[u32], wanted: Wanted) -> Option<usize>
    ensures { result ≡ find_of (passes wanted) words.now }
{
    words.iter().position(|word| is_wanted(wanted, *word))
}

// The first word from an index on that bears the label, on either side: one short test a word.
fn next_bearing(words: &[u32], label: u32, from: usize) -> Option<usize>
    ensures { result ≡ next_of (bears_label label) words.now from }
{
    for at in from..words.len() {
        if words[at] % LABEL_COUNT == label {
            return Some(at);
        }
    }
    None
}

// The first word that lists the label on that side: the side is looked at only where the label stands.
// One `position` over both tests is plainer, and makes more than one test of each word.
pub fn find_label(words: &[u32], side: Side, label: u32) -> Option<usize>
    ensures { result ≡ find_of (stands_for side label) words.now }
{
    let mut from: usize = 0;
    while from < words.len() {
        match next_bearing(words, label, from) {
            None => {
                return None;
            }
            Some(place) => {
                if on_side(side, words[place] / LABEL_COUNT) {
                    return Some(place);
                }
                from = place + 1;
            }
        }
    }
    None
}

// How many words are not free, those of code 6 included.
pub fn count_listed(words: &[u32]) -> usize
    ensures { result ≡ listed_count words.now }
{
    words.iter().filter(|word| **word != 0).count()
}
