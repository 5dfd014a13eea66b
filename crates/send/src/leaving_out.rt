// Which of the messages held a Send passes over: numbered Requests whose Abort is held behind them.
ghost use Rattle.std.specs.Prelude.{◌+◌, ◌≤◌, ◌<◌, [], ◌≡◌, length, get_or, drop};
ghost use Rattle.message.specs.Submission.{submission_of};
ghost use Rattle.image.specs.State.{decode};
ghost use Rattle.image.specs.Verdict.{IsSound};
ghost use Rattle.protocol.specs.LeftOut.{is_undone, kind_held, left_out_from, passed_over};
ghost use Rattle.calls.specs.State.{state_of};
ghost use Rattle.send.specs.Aborted.{aborted_id, aborted_ids, is_among, names};

use ft_number::MessageId;
use message::Kind;

// The numbers of two kinds, as a slot says them. `message::kind_number` asks for a `Kind`, and these two bear an ID, which
// is not read for the number.
const REQUEST: u8 = 7;

const ABORT: u8 = 8;

// The ID of the Request that a message of that kind aborts.
fn aborted_id(kind: Kind) -> Option<MessageId>
    ensures { result ≡ aborted_id kind }
{
    match kind {
        Kind::Abort(id) => Some(id),
        _ => None,
    }
}

// The ID that the i-th message held aborts. The TLVs of an Abort alone are read.
fn held_abort(image: &[u8], i: usize) -> Option<MessageId>
    requires { IsSound image.now × (i < (decode image.now).header.held) }
    ensures { result ≡ aborted_id (kind_held (submission_of (get_or (decode image.now).queue i []))) }
{
    if image::held_kind(image, i) != ABORT {
        return None;
    }
    match message::judge_submission(image::held_message(image, i)) {
        Ok((kind, _)) => aborted_id(kind),
        Err(_) => None,
    }
}

// The IDs that the messages held abort, from a place on: one for each message.
fn collect_aborted(image: &[u8], from: usize, ids: &mut [Option<MessageId>])
    requires { IsSound image.now × (from + length ids.old ≡ (decode image.now).header.held) }
    ensures { ids.new ≡ aborted_ids (drop from (decode image.now).queue) }
{
    for (i, id) in ids.iter_mut().enumerate() {
        *id = held_abort(image, from + i);
    }
}

// Whether what a message aborts is the Request of that ID.
fn names(aborted: Option<MessageId>, id: MessageId) -> bool
    ensures { result ≡ names id aborted }
{
    match aborted {
        Some(named) => named.0 == id.0,
        None => false,
    }
}

// Whether an ID is among them.
fn is_among(ids: &[Option<MessageId>], id: MessageId) -> bool
    ensures { result ≡ is_among id ids.now }
{
    for aborted in ids {
        if names(*aborted, id) {
            return true;
        }
    }
    false
}

// Whether the i-th message held is a Request whose Abort is behind it; `behind` has the IDs that the messages behind it abort.
fn is_undone(image: &[u8], i: usize, behind: &[Option<MessageId>]) -> bool
    requires { IsSound image.now × (i < (decode image.now).header.held) × (behind.now ≡ aborted_ids (drop (i + 1) (decode image.now).queue)) }
    ensures { result ≡ is_undone (drop i (decode image.now).queue) }
{
    if image::held_kind(image, i) != REQUEST {
        return false;
    }
    is_among(behind, message::id_in(image::held_message(image, i)))
}

// How many messages are passed over from a place on, of which so many have a number; `ids` has the IDs that the messages from there on abort.
fn pass_over(image: &[u8], from: usize, numbered: usize, ids: &[Option<MessageId>]) -> usize
    requires { IsSound image.now × (from + numbered ≤ (decode image.now).header.held) × (ids.now ≡ aborted_ids (drop from (decode image.now).queue)) }
    ensures { result ≡ passed_over numbered (drop from (decode image.now).queue) }
{
    for i in 0..numbered {
        if !is_undone(image, from + i, &ids[i + 1..]) {
            return i;
        }
    }
    numbered
}

// The same, with room for these IDs: each Abort is read once.
fn count_passed(image: &[u8], from: usize, numbered: usize, room: &mut [Option<MessageId>]) -> usize
    requires { IsSound image.now × (from + numbered ≤ (decode image.now).header.held) × (from + length room.old ≡ (decode image.now).header.held) }
    ensures { result ≡ passed_over numbered (drop from (decode image.now).queue) }
{
    collect_aborted(image, from, room);
    pass_over(image, from, numbered, room)
}

// The same: the room that the messages from there on need.
fn search(image: &[u8], from: usize, numbered: usize) -> usize
    requires { IsSound image.now × (from + numbered ≤ (decode image.now).header.held) }
    ensures { result ≡ passed_over numbered (drop from (decode image.now).queue) }
{
    let mut room = [None; image::SLOT_COUNT];
    let count = image::header_of(image).held as usize - from;
    count_passed(image, from, numbered, &mut room[0..count])
}

// How many messages are left out from the count sent on. Where the next is no Request with a number, that costs a look at its kind.
pub fn left_out(image: &[u8], sent: u32) -> u32
    requires { IsSound image.now × (sent < (decode image.now).header.held) }
    ensures { result ≡ left_out_from (state_of image.now) sent }
{
    let from = sent as usize;
    if image::held_kind(image, from) != REQUEST {
        return 0;
    }
    let issued = calls::issued_count(image::header_of(image));
    if issued <= sent {
        return 0;
    }
    search(image, from, (issued - sent) as usize) as u32
}
