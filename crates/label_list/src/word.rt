// One label word: its label, its code, and the side on which it stands.
ghost use Rattle.std.specs.Prelude.{◌<◌, ◌≡◌};
ghost use Rattle.label_list.specs.Word.{label_count, word_of, on_side, lists_label};

use crate::Side;

// The number of label words in the stored image.
pub const WORD_COUNT: usize = 119;

// The number of labels, and the value of one step of the code.
pub const LABEL_COUNT: u32 = 1048576;

// 01: "Labels 0 to 15 are never listed."
pub const FIRST_LABEL: u32 = 16;

// The word of every open Request: code 7 and no label.
pub const REQUEST_WORD: u32 = 7340032;

// Codes 1, 2, 8 and 9 are of labels that we gave, codes 3 to 6 of labels that we use.
#[tactic(auto, unfolding(crate::specs::Word::on_side))]
pub fn on_side(side: Side, code: u32) -> bool
    ensures { result ≡ on_side side code }
{
    match side {
        Side::Given => matches!(code, 1..=2 | 8..=9),
        Side::Used => matches!(code, 3..=6),
    }
}

// Whether a word lists a label: neither a free word nor an open Request's does.
#[tactic(auto, unfolding(crate::specs::Word::lists_label))]
pub fn lists_label(word: u32) -> bool
    ensures { result ≡ lists_label word }
{
    let code = word / LABEL_COUNT;
    on_side(Side::Given, code) || on_side(Side::Used, code)
}

// The word of a label under a code, label + 1,048,576 x code; under code 0 a free word.
#[tactic(auto, unfolding(crate::specs::Word::word_of))]
pub fn word_of(label: u32, code: u32) -> u32
    requires { (label < label_count) × (code < 4096) }
    ensures { result ≡ word_of label code }
{
    if code == 0 {
        return 0;
    }
    label + LABEL_COUNT * code
}
