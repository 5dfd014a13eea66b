// A slot of the stored image: one held message with its length, kind and label.
#![tactic(auto)]

ghost use Rattle.std.specs.Prelude.{◌+◌, ◌≤◌, ◌<◌, true, false, [], ◌∷◌, ◌≡◌, length};
ghost use Rattle.octets.specs.Laid.{laid};
ghost use Rattle.block.specs.Check.{block_size};
ghost use Rattle.block.specs.Run.{spelled};
ghost use Rattle.message.specs.Kinds.{kind_number};
ghost use Rattle.message.specs.Storable.{longest, bears};
ghost use Rattle.slot.specs.Fields.{slot_ok, Padded, slot_verdict};
ghost use Rattle.slot.specs.Layout.{head_widths, slot_length, slot_kind, slot_label, message_at, slot_message, slot_block};

use message::{Kind, SubmissionError};

// What restore finds wrong in a slot.
#[derive(Clone, Copy)]
pub enum SlotFault {
    BadCheck,
    BadFields,
}

// The lengths that a held message may have.
pub const SHORTEST: usize = 8;

pub const LONGEST: usize = 480;

// The highest number of a kind.
const LAST_KIND: u8 = 9;

// Where the message stands, and the bytes from there to the check.
pub const MESSAGE_AT: usize = 8;

const ROOM: usize = block::CHECK_AT - MESSAGE_AT;

fn put_head(block: &mut [u8], n: u16, kind: u8, label: u32)
    requires { length block.old ≡ block_size }
    ensures { block.new ≡ laid block.old 0 (spelled head_widths (n ∷ kind ∷ 0 ∷ label ∷ [])) }
{
    octets::put_u16(block, 0, n);
    octets::put_u8(block, 2, kind);
    octets::put_u8(block, 3, 0);
    octets::put_u32(block, 4, label);
}

// Writes the slot whole: length, kind, a zero, label, the message, zeros to byte 507, and the check.
pub fn write_slot(block: &mut [u8], m: &[u8], kind: Kind, label: u32)
    requires { (length block.old ≡ block_size) × (length m.now ≤ longest) }
    ensures { block.new ≡ slot_block m.now (kind_number kind) label }
{
    let n = m.len();
    put_head(block, n as u16, message::kind_number(kind), label);
    octets::copy_to(block, MESSAGE_AT, m);
    let end = MESSAGE_AT + n;
    octets::zero_to(block, end, ROOM - n);
    block::seal_before(block, end);
}

// The length that the slot gives its message.
fn message_length(block: &[u8]) -> usize
    requires { length block.now ≡ block_size }
    ensures { result ≡ slot_length block.now }
{
    octets::get_u16(block, 0) as usize
}

// The number of its kind.
pub fn kind_of(block: &[u8]) -> u8
    requires { length block.now ≡ block_size }
    ensures { result ≡ slot_kind block.now }
{
    octets::get_u8(block, 2)
}

// Its label; 0xFFFFFFFF for the kinds without one.
pub fn label_of(block: &[u8]) -> u32
    requires { length block.now ≡ block_size }
    ensures { result ≡ slot_label block.now }
{
    octets::get_u32(block, 4)
}

// Whether a judged message was accepted with that kind and label.
fn bears_both(judged: Result<(Kind, u32), SubmissionError>, kind: u8, label: u32) -> bool
    ensures { result ≡ bears judged kind label }
{
    match judged {
        Ok((k, l)) => message::kind_number(k) == kind && l == label,
        Err(_) => false,
    }
}

// Whether the fields are right of a slot whose length and padding are; the message ends at `end`.
#[tactic(auto, using(crate::proofs::Judged::judged))]
fn message_is_right(block: &[u8], end: usize) -> bool
    requires { (length block.now ≡ block_size) × Padded block.now end }
    ensures { result ≡ slot_ok block.now }
{
    let kind = kind_of(block);
    if kind < 1 {
        return false;
    }
    if kind > LAST_KIND {
        return false;
    }
    if octets::get_u8(block, 3) != 0 {
        return false;
    }
    bears_both(
        message::judge_submission(&block[MESSAGE_AT..end]),
        kind,
        label_of(block),
    )
}

// A slot whose fields are wrong: its check comes first all the same.
#[tactic(auto, using(crate::proofs::Judged::judged))]
fn judge_wrong(block: &[u8]) -> Result<(), SlotFault>
    requires { (length block.now ≡ block_size) × (false ≡ slot_ok block.now) }
    ensures { result ≡ slot_verdict block.now }
{
    if block::is_sound(block) {
        return Err(SlotFault::BadFields);
    }
    Err(SlotFault::BadCheck)
}

// The slot's check, and then its fields: length 8 to 480, kind 1 to 9, byte 3 zero, padding zero, and a message that passes Submit's 4 and 5
// with the slot's own kind and label. Zeros behind the message are looked at once, for both.
#[tactic(auto, using(crate::proofs::Judged::judged))]
pub fn judge_slot(block: &[u8]) -> Result<(), SlotFault>
    requires { length block.now ≡ block_size }
    ensures { result ≡ slot_verdict block.now }
{
    let n = message_length(block);
    if n < SHORTEST {
        return judge_wrong(block);
    }
    if n > LONGEST {
        return judge_wrong(block);
    }
    let end = MESSAGE_AT + n;
    if !block::zeros::all_zero(&block[end..block::CHECK_AT]) {
        return judge_wrong(block);
    }
    if !block::is_sound_before(block, end) {
        return Err(SlotFault::BadCheck);
    }
    if !message_is_right(block, end) {
        return Err(SlotFault::BadFields);
    }
    Ok(())
}

// The message that a slot with right fields holds, as that very part of the block.
#[tactic(auto, unfolding(crate::specs::Layout::slot_message))]
pub fn message_of(block: &[u8]) -> &[u8]
    requires { (length block.now ≡ block_size) × (slot_ok block.now ≡ true) }
    ensures result_value { result.now ≡ slot_message block.now }
    ensures place { (result.ref_ptr.0 ≡ block.entry.ref_ptr.0) × (result.ref_ptr.1 ≡ message_at + block.entry.ref_ptr.1) }
{
    let end = MESSAGE_AT + message_length(block);
    &block[MESSAGE_AT..end]
}
