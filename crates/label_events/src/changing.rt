// The change of one label's word: planned on the lent words, then written.
ghost use Rattle.std.specs.Prelude.{◌<◌, ◌≡◌};
ghost use Rattle.label_list.specs.Find.{FoundIn, find_of};
ghost use Rattle.label_list.specs.Word.{label_count, is_free};
ghost use Rattle.label_events.specs.Change.{ChangeIn, code_in, take_free, change_at, move_to, placed_at, changed, taken_at};
ghost use Rattle.label_events.specs.Requests.{where_free, room_at};

use crate::Change;
use label_list::{LABEL_COUNT, REQUEST_WORD, Wanted, find, word_of};

// The code of the word found; 0 where there is none.
pub fn code_at(words: &[u32], place: Option<usize>) -> u32
    requires { FoundIn words.now place }
    ensures { (result ≡ code_in words.now place) × (result < 4096) }
{
    match place {
        Some(i) => words[i] / LABEL_COUNT,
        None => 0,
    }
}

// A spare place, where the word there is free.
fn where_free(words: &[u32], spare: Option<usize>) -> Option<usize>
    ensures { result ≡ where_free spare words.now }
{
    match spare {
        Some(i) => {
            if words.len() <= i {
                return None;
            }
            if words[i] != 0 {
                return None;
            }
            Some(i)
        }
        None => None,
    }
}

// The word for a label that needs one: that of the Request which the message ends, else the spare one.
pub fn room_at(words: &[u32], request: Option<usize>, spare: Option<usize>) -> Option<usize>
    ensures { result ≡ room_at request spare words.now }
{
    match request {
        Some(i) => {
            if i < words.len() {
                if words[i] == REQUEST_WORD {
                    return Some(i);
                }
            }
            where_free(words, spare)
        }
        None => where_free(words, spare),
    }
}

fn take_free(room: Option<usize>, word: u32) -> Change
    ensures { result ≡ take_free room word }
{
    match room {
        Some(free) => Change::Put(free, word),
        None => Change::NoRoom,
    }
}

fn move_to(from: usize, room: Option<usize>, word: u32) -> Change
    ensures { result ≡ move_to from room word }
{
    match room {
        Some(free) => Change::Move(from, free, word),
        None => Change::NoRoom,
    }
}

// The change that gives the label, found at that place, that code; a label that has no place takes the first free word.
pub fn plan_change(words: &[u32], place: Option<usize>, label: u32, code: u32) -> Change
    requires { (label < label_count) × (code < 4096) }
    ensures { result ≡ change_at place (find_of is_free words.now) label code }
{
    let word = word_of(label, code);
    match place {
        Some(i) => Change::Put(i, word),
        None => {
            if code == 0 {
                return Change::Keep;
            }
            take_free(find(words, Wanted::Free), word)
        }
    }
}

// The same, where a label that needs a word takes the one at `room`, and one that moves leaves its own.
pub fn plan_place(
    moves: bool,
    place: Option<usize>,
    room: Option<usize>,
    label: u32,
    code: u32,
) -> Change
    requires { (label < label_count) × (code < 4096) }
    ensures { result ≡ placed_at moves place room label code }
{
    let word = word_of(label, code);
    match place {
        Some(i) => {
            if moves {
                return move_to(i, room, word);
            }
            Change::Put(i, word)
        }
        None => {
            if code == 0 {
                return Change::Keep;
            }
            take_free(room, word)
        }
    }
}

// The place at which a label that stood at `place` takes a word by that change.
pub fn taken_at(place: Option<usize>, change: Change) -> Option<usize>
    ensures { result ≡ taken_at place change }
{
    match change {
        Change::Keep => None,
        Change::Put(to, _) => match place {
            Some(_) => None,
            None => Some(to),
        },
        Change::Move(_, to, _) => Some(to),
        Change::NoRoom => None,
    }
}

// Writes a planned change.
pub fn make_change(words: &mut [u32], change: Change)
    requires { ChangeIn words.old change }
    ensures { words.new ≡ changed words.old change }
{
    match change {
        Change::Keep => {}
        Change::Put(i, word) => words[i] = word,
        Change::Move(from, to, word) => {
            words[from] = 0;
            words[to] = word;
        }
        Change::NoRoom => {}
    }
}
