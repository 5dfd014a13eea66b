// What an acknowledgement makes of block 0's numbers and label words.
ghost use Rattle.std.specs.Prelude.{◌-◌, ◌≤◌, ◌≡◌, take};
ghost use Rattle.block0.specs.Updates.{header_released};
ghost use Rattle.image.specs.Sizes.{slot_at};
ghost use Rattle.image.specs.State.{decode};
ghost use Rattle.image.specs.Verdict.{IsSound};
ghost use Rattle.protocol.specs.Acked.{released_kind, released_labels};
ghost use Rattle.calls.specs.Freeing.{frees_label, frees_none};

use block0::Header;
use ft_number::FtNumber;
use label_list::LabelMessage;
use message::Kind;

// The label words after a held message of that kind and label was released.
fn release_label(words: &mut [u32], kind: u8, label: u32)
    ensures { words.new ≡ released_kind kind label words.old }
{
    if kind == message::kind_number(Kind::Withdraw) {
        label_events::release_by_ack(words, LabelMessage::Withdraw, label);
        return;
    }
    if kind == message::kind_number(Kind::Release) {
        label_events::release_by_ack(words, LabelMessage::Release, label);
        return;
    }
}

// The label words after the oldest `count` held messages were released: of a Withdraw 2 and of a Release 5 become free, all else stays.
pub fn release_labels(image: &[u8], count: usize, words: &mut [u32])
    requires { IsSound image.now × (count ≤ (decode image.now).header.held) }
    ensures { words.new ≡ released_labels (take count (decode image.now).queue) words.old }
{
    for i in 0..count {
        release_label(
            words,
            image::held_kind(image, i),
            image::held_label(image, i),
        );
    }
}

// Whether the release of a held message of that kind may free a label.
fn frees_label(kind: u8) -> bool
    ensures { result ≡ frees_label kind }
{
    let withdraw = message::kind_number(Kind::Withdraw);
    let release = message::kind_number(Kind::Release);
    if kind == withdraw {
        return true;
    }
    kind == release
}

// Whether the release of the oldest `count` held messages leaves every label word as it is, told by their kinds alone.
pub fn frees_none(image: &[u8], count: usize) -> bool
    requires { IsSound image.now × (count ≤ (decode image.now).header.held) }
    ensures { result ≡ frees_none (take count (decode image.now).queue) }
{
    for i in 0..count {
        if frees_label(image::held_kind(image, i)) {
            return false;
        }
    }
    true
}

// The header after an ACK: R is the number acknowledged, and the oldest `count` slots are free; all else stays.
pub fn released_header(h: Header, count: u32, ack: FtNumber) -> Header
    requires { count ≤ h.held }
    ensures { result ≡ header_released h ack (slot_at h.first count) (h.held - count) }
{
    let mut next = h;
    next.released = ack;
    next.first = ((h.first as usize + count as usize) % image::SLOT_COUNT) as u16;
    next.held = h.held - count as u16;
    next
}
