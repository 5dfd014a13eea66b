// Whether a received message bears the protection that the labels it touches demand.
ghost use Rattle.std.specs.Prelude.{true, ◌≡◌};
ghost use Rattle.label_events.specs.Protect.{protection_of, prefix_protection, protection_beside};
ghost use Rattle.label_events.specs.Reach.{Those};
ghost use Rattle.label_events.specs.Receive.{received_place};

use crate::Touched;
use crate::changing::code_at;
use label_list::{
    LabelMessage, Protection, Wanted, any_guarded, code_protection, find, received_side,
};

fn protection_of_every(words: &[u32], message: LabelMessage, protected: bool) -> Protection
    ensures { result ≡ protection_of words.now message protected (Those (λ k. true)) }
{
    if protected {
        return Protection::Right;
    }
    match find(words, Wanted::ProtectedOn(received_side(message))) {
        Some(_) => Protection::Missing,
        None => Protection::Right,
    }
}

fn protection_of_prefix(
    words: &[u32],
    entries: &[u64],
    message: LabelMessage,
    protected: bool,
    entry: u64,
) -> Protection
    ensures { result ≡ prefix_protection words.now entries.now message protected entry }
{
    if protected {
        return Protection::Right;
    }
    if any_guarded(words, entries, entry, received_side(message)) {
        return Protection::Missing;
    }
    Protection::Right
}

// The verdict on the protection of a received message, whose label was found at that place, as the list stands before it acts: right,
// missing (33) or wrong (32), for a named label, for every label, for those of a prefix, or for none. The entries are read for a prefix alone.
pub fn judge_protection(
    words: &[u32],
    entries: &[u64],
    place: Option<usize>,
    message: LabelMessage,
    protected: bool,
    touched: Touched,
) -> Protection
    requires { place ≡ received_place words.now message touched }
    ensures { result ≡ protection_beside words.now entries.now message protected touched }
{
    match touched {
        Touched::Label(_) => code_protection(message, protected, code_at(words, place)),
        Touched::Every => protection_of_every(words, message, protected),
        Touched::Prefix(entry) => protection_of_prefix(words, entries, message, protected, entry),
        Touched::Nothing => Protection::Right,
    }
}
