// The messages held by a sound image, counted from the oldest: each as that very part of the image, with its kind and
// label.
ghost use Rattle.std.specs.Prelude.{◌+◌, ◌≤◌, ◌<◌, [], ◌≡◌, length, get_or};
ghost use Rattle.block.specs.Check.{block_size};
ghost use Rattle.block0.specs.Layout.{slot_count};
ghost use Rattle.message.specs.Storable.{kind_in, label_in};
ghost use Rattle.message.specs.Submission.{submission_of};
ghost use Rattle.slot.specs.Layout.{message_at};
ghost use Rattle.image.specs.Sizes.{block_of, slot_at};
ghost use Rattle.image.specs.State.{decode, held_block, held_place, held_start};
ghost use Rattle.image.specs.Verdict.{IsSound};

// The number of the block in which the i-th message held stands.
fn held_block(image: &[u8], i: usize) -> usize
    requires { IsSound image.now × (i < (decode image.now).header.held) }
    ensures { (result ≡ block_of (slot_at (decode image.now).header.first i)) × (result ≤ slot_count) }
{
    let h = crate::header_of(image);
    (crate::wide(h.first) + i) % crate::SLOT_COUNT + 1
}

// That block.
fn held_slot(image: &[u8], i: usize) -> &[u8]
    requires { IsSound image.now × (i < (decode image.now).header.held) }
    ensures result_value { (result.now ≡ held_block image.now i) × (length result.now ≡ block_size) }
    ensures place { (result.ref_ptr.0 ≡ image.entry.ref_ptr.0) × (result.ref_ptr.1 ≡ held_place image.now i + image.entry.ref_ptr.1) }
{
    crate::block_at(image, held_block(image, i))
}

// The i-th message held, from the oldest, as that very part of the image.
pub fn held_message(image: &[u8], i: usize) -> &[u8]
    requires { IsSound image.now × (i < (decode image.now).header.held) }
    ensures result_value { result.now ≡ get_or (decode image.now).queue i [] }
    ensures place { (result.ref_ptr.0 ≡ image.entry.ref_ptr.0) × (result.ref_ptr.1 ≡ message_at + (held_place image.now i + image.entry.ref_ptr.1)) }
{
    slot::message_of(held_slot(image, i))
}

// Where it starts in the image.
pub fn held_start(image: &[u8], i: usize) -> usize
    requires { IsSound image.now × (i < (decode image.now).header.held) }
    ensures { result ≡ held_start image.now i }
{
    slot::MESSAGE_AT + held_block(image, i) * block::BLOCK_SIZE
}

// The number of its kind, 1 to 9, as Submit judges it.
pub fn held_kind(image: &[u8], i: usize) -> u8
    requires { IsSound image.now × (i < (decode image.now).header.held) }
    ensures { result ≡ kind_in (submission_of (get_or (decode image.now).queue i [])) }
{
    slot::kind_of(held_slot(image, i))
}

// Its label, as Submit judges it; 0xFFFFFFFF for the kinds without one.
pub fn held_label(image: &[u8], i: usize) -> u32
    requires { IsSound image.now × (i < (decode image.now).header.held) }
    ensures { result ≡ label_in (submission_of (get_or (decode image.now).queue i [])) }
{
    slot::label_of(held_slot(image, i))
}
