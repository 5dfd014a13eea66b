// Submit's last answers, once nothing held bars the message: 6, 14, 15, 13, 7.
ghost use Rattle.std.specs.Prelude.{not, ◌≡◌, length};
ghost use Rattle.octets.specs.Pick.{pick};
ghost use Rattle.image.specs.Sizes.{image_size};
ghost use Rattle.protocol.specs.Phases.{is_up_ft};
ghost use Rattle.protocol.specs.Submit.{acceptance_rule, ask_rule, room_rule};
ghost use Rattle.calls.specs.State.{state_of};

use calls::{Answer, Phase};
use label_events::Acceptance;
use message::Kind;

// 7: whether there is room for one more message.
fn judge_room(image: &[u8]) -> Answer
    requires { length image.now ≡ image_size }
    ensures { result ≡ room_rule (state_of image.now) }
{
    if image::header_of(image).held as usize >= image::SLOT_COUNT {
        return Answer::StoreFull;
    }
    Answer::Done
}

// 14 and 15, of a Request: then what comes after them.
fn judge_request(image: &[u8], phase: Phase, answer: Answer) -> Answer
    requires { length image.now ≡ image_size }
    ensures { result ≡ pick (state_of image.now).marks.stopped Answer.RequestsStopped (pick (not (is_up_ft phase)) Answer.RequestOutsideUpFt answer) }
{
    if calls::requests_stopped(image::header_of(image).marks) {
        return Answer::RequestsStopped;
    }
    if !matches!(phase, Phase::UpFT(_)) {
        return Answer::RequestOutsideUpFt;
    }
    answer
}

// 14 and 15 are asked of a Request alone.
fn judge_kind(image: &[u8], phase: Phase, kind: Kind, answer: Answer) -> Answer
    requires { length image.now ≡ image_size }
    ensures { result ≡ ask_rule (state_of image.now) phase kind answer }
{
    match kind {
        Kind::Request(_) => judge_request(image, phase, answer),
        _ => answer,
    }
}

// The answer to a message of that kind, by what its label or its Request was answered.
pub fn judge(image: &[u8], phase: Phase, kind: Kind, acceptance: Acceptance) -> Answer
    requires { length image.now ≡ image_size }
    ensures { result ≡ acceptance_rule (state_of image.now) phase kind acceptance }
{
    match acceptance {
        Acceptance::Taken => judge_kind(image, phase, kind, judge_room(image)),
        Acceptance::NotAllowed => Answer::LabelNotAllowed,
        Acceptance::NoRoom => judge_kind(image, phase, kind, Answer::NoLabelWord),
    }
}
