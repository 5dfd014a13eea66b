// Requests of ours: asked, taken back by an Abort, answered by the peer.
ghost use Rattle.std.specs.Prelude.{◌≤◌, ◌≡◌, length};
ghost use Rattle.label_events.specs.Accept.{plan_change, accepted_by};
ghost use Rattle.label_events.specs.Requests.{asked_plan, aborted_plan, ids_put, ended_at};

use crate::{Acceptance, Accepted, Change};
use ft_number::MessageId;
use label_list::{REQUEST_WORD, Wanted, find, find_request};

// Accepts a Request of that ID: its word and its ID are written at the first free word. Refused, NotAllowed (6) where the ID is open already,
// NoRoom (13) where no word is free, both lists stay as they were. The change says which word is another now.
pub fn ask(words: &mut [u32], ids: &mut [u32], id: MessageId) -> Accepted
    requires { length words.old ≤ length ids.old }
    ensures { (result.acceptance ≡ (accepted_by words.old (asked_plan words.old ids.old id)).0) × (result.change ≡ plan_change (asked_plan words.old ids.old id)) × (words.new ≡ (accepted_by words.old (asked_plan words.old ids.old id)).1) × (ids.new ≡ ids_put ids.old (plan_change (asked_plan words.old ids.old id)) id) }
{
    match find_request(words, ids, id) {
        Some(_) => Accepted {
            acceptance: Acceptance::NotAllowed,
            change: Change::Keep,
        },
        None => match find(words, Wanted::Free) {
            Some(i) => {
                words[i] = REQUEST_WORD;
                ids[i] = id.0;
                Accepted {
                    acceptance: Acceptance::Taken,
                    change: Change::Put(i, REQUEST_WORD),
                }
            }
            None => Accepted {
                acceptance: Acceptance::NoRoom,
                change: Change::NoRoom,
            },
        },
    }
}

// Accepts the Abort of the Request of that ID: its word is free then. Where none is open (NotAllowed, 6) the list stays as it was.
pub fn abort(words: &mut [u32], ids: &[u32], id: MessageId) -> Accepted
    ensures { (result.acceptance ≡ (accepted_by words.old (aborted_plan words.old ids.now id)).0) × (result.change ≡ plan_change (aborted_plan words.old ids.now id)) × (words.new ≡ (accepted_by words.old (aborted_plan words.old ids.now id)).1) }
{
    match find_request(words, ids, id) {
        Some(i) => {
            words[i] = 0;
            Accepted {
                acceptance: Acceptance::Taken,
                change: Change::Put(i, 0),
            }
        }
        None => Accepted {
            acceptance: Acceptance::NotAllowed,
            change: Change::Keep,
        },
    }
}

// Ends the Request at that place, if one is open there: its word is free then.
pub fn end_request(words: &mut [u32], request: Option<usize>)
    ensures { words.new ≡ ended_at request words.old }
{
    match request {
        Some(i) => {
            if words.len() <= i {
                return;
            }
            if words[i] == REQUEST_WORD {
                words[i] = 0;
            }
        }
        None => {}
    }
}
