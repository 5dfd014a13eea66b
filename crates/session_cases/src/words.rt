// The words of the script, and the numbers behind each: first a place, then those that are named here.
use crate::calling::Call;
use crate::script::{Numbers, place_in};
use calls::{Phase, Progress, Waiting};

// What a line asks for.
#[derive(Clone, Copy)]
pub enum Deed {
    // Open has the room for its output, the timeout that it proposes, if any (no number stands for none), and 1 for labels on demand, 2
    // for the published form, whose timeout is milliseconds, 3 for both; Send the room, and 1 for an ACK; KeepAlive the room; TimePassed
    // milliseconds. Init, Submit and Receive have a message.
    Make(Call),
    // Prints no more than the name, and has no place.
    Title,
    // Prints the image's counts.
    Counts,
    // The place of a label word: prints whether it is an open Request's, and the ID.
    Request,
    // Another place, whose image and phase are copied here; or a block of each, here and there, of which the one becomes the other.
    Copy,
    // An offset, and the byte that is put there.
    Spoil,
    // Puts the cabinet in a phase; the number that the phase bears, and 1 for a connection that is resumed.
    Put(Phase),
    Unknown,
}

// The deed of a word with its numbers.
pub fn deed_of(word: &[u8], n: Numbers) -> Deed {
    let words =
        b"format restore open init submit send receive keepalive failed time title counts request copy spoil Idle InitWait UpFT UpPlain Failed";
    match place_in(words, word) {
        0 => Deed::Make(Call::Format),
        1 => Deed::Make(Call::Restore),
        2 => Deed::Make(Call::Open),
        3 => Deed::Make(Call::Init),
        4 => Deed::Make(Call::Submit),
        5 => Deed::Make(Call::Send),
        6 => Deed::Make(Call::Receive),
        7 => Deed::Make(Call::KeepAlive),
        8 => Deed::Make(Call::ConnectionFailed),
        9 => Deed::Make(Call::TimePassed),
        10 => Deed::Title,
        11 => Deed::Counts,
        12 => Deed::Request,
        13 => Deed::Copy,
        14 => Deed::Spoil,
        15 => Deed::Put(Phase::Idle),
        16 => Deed::Put(Phase::InitWait(Waiting { timeout: n.second })),
        17 => Deed::Put(Phase::UpFT(Progress {
            sent: n.second,
            resumed: n.third == 1,
        })),
        18 => Deed::Put(Phase::UpPlain),
        19 => Deed::Put(Phase::Failed),
        _ => Deed::Unknown,
    }
}
