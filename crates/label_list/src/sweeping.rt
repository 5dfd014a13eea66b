// A rule applied to every label word.
ghost use Rattle.std.specs.Prelude.{◌≡◌};
ghost use Rattle.label_list.specs.Sweep.{word_swept, swept_of};

use crate::SweepRule;
use crate::rules::code_swept;
use crate::word::{LABEL_COUNT, word_of};

// One word after a rule.
#[tactic(auto, using(crate::proofs::Small::swept_small), unfolding(crate::specs::Sweep::word_swept))]
pub fn word_swept(rule: SweepRule, word: u32) -> u32
    ensures { result ≡ word_swept rule word }
{
    word_of(word % LABEL_COUNT, code_swept(rule, word / LABEL_COUNT))
}

// Every word after a rule for all labels: a Withdraw or a Release of the wildcard FEC is received, or a connection has ended (code 6 is freed).
pub fn sweep(words: &mut [u32], rule: SweepRule)
    ensures { words.new ≡ swept_of words.old rule }
{
    for word in words.iter_mut() {
        *word = word_swept(rule, *word);
    }
}
