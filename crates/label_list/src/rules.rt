// What each event makes of a label's code; code 0 stands for a label that is absent.
ghost use Rattle.std.specs.Prelude.{◌≡◌};
ghost use Rattle.label_list.specs.Protection.{needs_protection, bars_protection, code_protection};
ghost use Rattle.label_list.specs.Rules.{sent_side, received_side, code_accepted, code_acked, code_received, code_swept};

use crate::word::on_side;
use crate::{LabelMessage, Protection, Side, SweepRule};

// The code of a label as a message of ours is accepted for sending, or that its code does not allow it.
#[tactic(auto, unfolding(crate::specs::Rules::code_accepted))]
pub fn code_accepted(message: LabelMessage, code: u32) -> Option<u32>
    ensures { result ≡ code_accepted message code }
{
    match message {
        LabelMessage::Mapping => match code {
            0..=1 => Some(1),
            _ => None,
        },
        LabelMessage::Withdraw => match code {
            1 => Some(2),
            _ => None,
        },
        LabelMessage::Release => match code {
            3 => Some(5),
            4 => Some(0),
            _ => None,
        },
    }
}

// The code of a label as a message of ours is released by an ACK.
#[tactic(auto, unfolding(crate::specs::Rules::code_acked))]
pub fn code_acked(message: LabelMessage, code: u32) -> u32
    ensures { result ≡ code_acked message code }
{
    match message {
        LabelMessage::Mapping => code,
        LabelMessage::Withdraw => match code {
            2 => 8,
            9 => 0,
            _ => code,
        },
        LabelMessage::Release => match code {
            5 => 0,
            _ => code,
        },
    }
}

// The code of a label as a message of the peer's is received, protected or not.
#[tactic(auto, unfolding(crate::specs::Rules::code_received))]
pub fn code_received(message: LabelMessage, protected: bool, code: u32) -> u32
    ensures { result ≡ code_received message protected code }
{
    match message {
        LabelMessage::Mapping => {
            if protected {
                match code {
                    0 | 5 => 3,
                    _ => code,
                }
            } else {
                match code {
                    0 => 6,
                    _ => code,
                }
            }
        }
        LabelMessage::Withdraw => match code {
            3 => 4,
            6 => 0,
            _ => code,
        },
        LabelMessage::Release => match code {
            1 => 0,
            2 => 9,
            8 => 0,
            _ => code,
        },
    }
}

// A rule for every label.
#[tactic(auto, unfolding(crate::specs::Rules::code_swept))]
pub fn code_swept(rule: SweepRule, code: u32) -> u32
    ensures { result ≡ code_swept rule code }
{
    match rule {
        SweepRule::WithdrawAll => code_received(LabelMessage::Withdraw, true, code),
        SweepRule::ReleaseAll => code_received(LabelMessage::Release, true, code),
        SweepRule::AfterBreak => match code {
            6 => 0,
            _ => code,
        },
    }
}

// The side of the label in a message that we send.
#[tactic(auto, unfolding(crate::specs::Rules::sent_side))]
pub fn sent_side(message: LabelMessage) -> Side
    ensures { result ≡ sent_side message }
{
    match message {
        LabelMessage::Mapping | LabelMessage::Withdraw => Side::Given,
        LabelMessage::Release => Side::Used,
    }
}

// The side of the label in a message that we receive.
#[tactic(auto, unfolding(crate::specs::Rules::received_side))]
pub fn received_side(message: LabelMessage) -> Side
    ensures { result ≡ received_side message }
{
    match message {
        LabelMessage::Mapping | LabelMessage::Withdraw => Side::Used,
        LabelMessage::Release => Side::Given,
    }
}

// Any code of the message's own side but 6: Mapping and Withdraw 3 to 5, Release 1, 2, 8 and 9.
#[tactic(auto, unfolding(crate::specs::Protection::needs_protection))]
pub fn needs_protection(side: Side, code: u32) -> bool
    ensures { result ≡ needs_protection side code }
{
    code != 6 && on_side(side, code)
}

// 01: "wrong (32) on a Mapping or Withdraw that names a label of code 6"
#[tactic(auto, unfolding(crate::specs::Protection::bars_protection))]
fn bars_protection(message: LabelMessage, code: u32) -> bool
    ensures { result ≡ bars_protection message code }
{
    match message {
        LabelMessage::Mapping | LabelMessage::Withdraw => code == 6,
        LabelMessage::Release => false,
    }
}

// The verdict on a received message that names a label of that code: right, missing (33) or wrong (32).
#[tactic(auto, unfolding(crate::specs::Protection::code_protection))]
pub fn code_protection(message: LabelMessage, protected: bool, code: u32) -> Protection
    ensures { result ≡ code_protection message protected code }
{
    if protected {
        if bars_protection(message, code) {
            return Protection::Wrong;
        }
        return Protection::Right;
    }
    if needs_protection(received_side(message), code) {
        return Protection::Missing;
    }
    Protection::Right
}
