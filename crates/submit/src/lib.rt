// Submit: the message is judged, and queued as the newest one held. It gets its number when it is first sent.
#![tactic(auto)]

ghost use Rattle.std.specs.Prelude.{◌≤◌, [], ◌≡◌, length};
ghost use Rattle.message.specs.Storable.{shortest, longest};
ghost use Rattle.message.specs.Submission.{entry_in, submission_of};
ghost use Rattle.image.specs.State.{decode};
ghost use Rattle.image.specs.Verdict.{IsSound};
ghost use Rattle.protocol.specs.Submit.{kind_rule};
ghost use Rattle.calls.specs.Outcomes.{after_with, settle_of};
ghost use Rattle.calls.specs.State.{state_of};
ghost use Rattle.submit.specs.Call.{queued, submit_of};

use calls::{Answer, Outcome, Phase};
use message::{Kind, SubmissionError};

mod judging;
mod labels;
mod storing;

// A message that passes 3, 4 and 5, with its kind and label: 6, 14, 15, 13 and 7 are asked, and it is queued.
fn submit_accepted(image: &mut [u8], phase: Phase, msg: &[u8], kind: Kind, label: u32) -> Outcome
    requires { IsSound image.old × ((decode image.old).header.kept ≡ 1) × (shortest ≤ length msg.now) × (length msg.now ≤ longest) × (submission_of msg.now ≡ Ok (kind, label)) }
    ensures { after_with result image.new [] ≡ settle_of (kind_rule (state_of image.old) phase kind label (entry_in msg.now)) phase image.old [] (queued image.old phase msg.now) }
{
    if labels::is_barred(image, kind, label) {
        return calls::refuse(Answer::LabelNotAllowed, phase);
    }
    let entry = labels::entry_of(msg, kind);
    let accepted = labels::accept_as(image, kind, label, entry);
    let acceptance = accepted.acceptance;
    let change = accepted.change;
    let answer = judging::judge(image, phase, kind, acceptance);
    if !calls::is_done(answer) {
        return calls::refuse(answer, phase);
    }
    storing::queue_message(image, phase, msg, kind, label, entry, change)
}

// Submits a message: 12, 1, 3, 4, 5, then what its kind and label say. A refusal changes nothing.
pub fn submit(image: &mut [u8], phase: Phase, msg: &[u8]) -> Outcome
    ensures { after_with result image.new [] ≡ submit_of image.old phase msg.now }
{
    let a = calls::admit(image, phase);
    if !calls::is_done(a) {
        return calls::refuse(a, phase);
    }
    if image::header_of(image).kept != 1 {
        return calls::refuse(Answer::WrongPhase, phase);
    }
    if msg.len() < slot::SHORTEST {
        return calls::refuse(Answer::LengthOutOfRange, phase);
    }
    if msg.len() > slot::LONGEST {
        return calls::refuse(Answer::LengthOutOfRange, phase);
    }
    match message::judge_submission(msg) {
        Err(SubmissionError::Malformed) => calls::refuse(Answer::Malformed, phase),
        Err(SubmissionError::Refused) => calls::refuse(Answer::KindNotSent, phase),
        Ok((kind, label)) => submit_accepted(image, phase, msg, kind, label),
    }
}
