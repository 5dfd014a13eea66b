// Validity of the label words, in one pass from the last word to the first.
//
// A table of marks answers for most words that their label stands in no later word of its side; only a label whose place is marked already costs a search.
ghost use Rattle.std.specs.Prelude.{ℕ, ◌<◌, true, ◌∷◌, ◌≡◌};
ghost use Rattle.label_list.specs.Marks.{mark_at, MarksTell};
ghost use Rattle.label_list.specs.Valid.{absent, valid_word, valid_of};
ghost use Rattle.label_list.specs.Word.{stands_for};

use crate::Side;
use crate::search::find_label;
use crate::word::{FIRST_LABEL, LABEL_COUNT, REQUEST_WORD, on_side};

// The place of a side and a label in the table of marks.
#[tactic(auto, unfolding(crate::specs::Marks::mark_at))]
fn place_of(side: Side, label: u32) -> usize
    ensures { (result ≡ mark_at side label) × (result < 512) }
{
    match side {
        Side::Given => (label % 256) as usize,
        Side::Used => 256 + (label % 256) as usize,
    }
}

// Whether the label stands in none of these words on that side.
fn is_absent(side: Side, label: u32, words: &[u32]) -> bool
    ensures { result ≡ absent side label words.now }
{
    find_label(words, side, label).is_none()
}

// Whether the label stands in no later word of that side; its place is marked then.
fn mark_label(side: Side, label: u32, later: &[u32], marks: &mut [u8]) -> bool
    requires { MarksTell later.now marks.old }
    ensures { (result ≡ absent side label later.now) × ((w : ℕ) → stands_for side label w ≡ true → MarksTell (w ∷ later.now) marks.new) }
{
    let place = place_of(side, label);
    if marks[place] == 0 {
        marks[place] = 1;
        return true;
    }
    is_absent(side, label, later)
}

// Whether a word may stand before the later words; it is marked then.
fn mark_word(word: u32, later: &[u32], marks: &mut [u8]) -> bool
    requires { MarksTell later.now marks.old }
    ensures { (result ≡ valid_word word later.now) × (result ≡ true → MarksTell (word ∷ later.now) marks.new) }
{
    if word == 0 {
        return true;
    }
    if word == REQUEST_WORD {
        return true;
    }
    let label = word % LABEL_COUNT;
    if label < FIRST_LABEL {
        return false;
    }
    let code = word / LABEL_COUNT;
    if on_side(Side::Given, code) {
        return mark_label(Side::Given, label, later, marks);
    }
    if on_side(Side::Used, code) {
        return mark_label(Side::Used, label, later, marks);
    }
    false
}

// Restore's rule for the label words: each is 0, or an open Request's, or has a label from 16 up and a code of a side; no label stands twice among
// codes 1, 2, 8 and 9 nor twice among 3 to 6.
pub fn valid(words: &[u32]) -> bool
    ensures { result ≡ valid_of words.now }
{
    let mut marks = [0u8; 512];
    for i in (0..words.len()).rev() {
        if !mark_word(words[i], &words[i + 1..], &mut marks) {
            return false;
        }
    }
    true
}
