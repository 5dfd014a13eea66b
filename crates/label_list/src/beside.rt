// A list of entries beside the label words: a rule for the words of one entry, and whether any of them needs protection.
ghost use Rattle.std.specs.Prelude.{◌≡◌, eqb};
ghost use Rattle.octets.specs.Pick.{both};
ghost use Rattle.label_list.specs.Beside.{word_beside, swept_beside, any_beside};
ghost use Rattle.label_list.specs.Protection.{protected_on};

use crate::rules::needs_protection;
use crate::sweeping::word_swept;
use crate::word::LABEL_COUNT;
use crate::{Side, SweepRule};

// One word, by the entry beside it.
#[tactic(auto, unfolding(crate::specs::Beside::word_beside))]
fn word_beside(rule: SweepRule, entry: u64, word: u32, there: u64) -> u32
    ensures { result ≡ word_beside rule entry word there }
{
    if there == entry {
        return word_swept(rule, word);
    }
    word
}

// Every word beside which that entry stands, after a rule: a Withdraw or a Release of a prefix without a label is received.
pub fn sweep_beside(words: &mut [u32], entries: &[u64], entry: u64, rule: SweepRule)
    ensures { words.new ≡ swept_beside rule entry words.old entries.now }
{
    // By index: of what is written through a `zip` of `iter_mut` nothing is known.
    for i in 0..words.len().min(entries.len()) {
        words[i] = word_beside(rule, entry, words[i], entries[i]);
    }
}

// Whether a word, beside which that entry stands, has a code on a side that needs protection.
fn is_guarded(side: Side, entry: u64, word: u32, there: u64) -> bool
    ensures { result ≡ both (eqb there entry) (protected_on side word) }
{
    there == entry && needs_protection(side, word / LABEL_COUNT)
}

// Whether any word has such a code and that entry beside it.
pub fn any_guarded(words: &[u32], entries: &[u64], entry: u64, side: Side) -> bool
    ensures { result ≡ any_beside (protected_on side) entry words.now entries.now }
{
    words
        .iter()
        .zip(entries)
        .any(|(word, there)| is_guarded(side, entry, *word, *there))
}
