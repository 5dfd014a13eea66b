// A block of the stored image: 512 bytes, the last four of them the check of the others.
#![tactic(auto)]

ghost use Rattle.std.specs.Prelude.{◌≤◌, true, ◌≡◌, length, take, drop};
ghost use Rattle.octets.specs.Part.{part};
ghost use Rattle.block.specs.Check.{block_size, check_at, check_of, sound, sealed, block_check_of};
ghost use Rattle.block.specs.Zeros.{all_zero};

mod remainder;
mod rows;
pub mod words;
pub mod zeros;

// A block has 512 bytes, and its check stands in the last four.
pub const BLOCK_SIZE: usize = 512;

pub const CHECK_AT: usize = 508;

// The check of the 254 words before it, which are zero from `end` on: only rows with a byte before `end` are summed.
// Inlined, so that `check_rows` has several callers and stays a function of the archive, as tests/c/no_divide.sh asks.
#[inline(always)]
fn check_before(body: &[u8], end: usize) -> u32
    requires { (length body.now ≡ check_at) × (end ≤ check_at) × (all_zero (drop end body.now) ≡ true) }
    ensures { result ≡ check_of body.now }
{
    rows::check_rows(body, (end + 15) >> 4)
}

// Whether bytes 508 to 511 are the check of those before, bit for bit: A from 1 and B from 0, over 254 big-endian words, modulo 65,535.
#[tactic(auto, using(crate::proofs::ZeroBytes::all_zero_none))]
pub fn is_sound(block: &[u8]) -> bool
    requires { length block.now ≡ block_size }
    ensures { result ≡ sound block.now }
{
    is_sound_before(block, CHECK_AT)
}

// Whether a block has its check whose bytes from `end` up to the check are zero: the same answer, in less time.
pub fn is_sound_before(block: &[u8], end: usize) -> bool
    requires { (length block.now ≡ block_size) × (end ≤ check_at) × (all_zero (part block.now end check_at) ≡ true) }
    ensures { result ≡ sound block.now }
{
    octets::get_u32(block, CHECK_AT) == check_before(&block[0..CHECK_AT], end)
}

// Writes the check of the block; every other byte stays.
#[tactic(auto, using(crate::proofs::ZeroBytes::all_zero_none))]
pub fn seal(block: &mut [u8])
    requires { length block.old ≡ block_size }
    ensures { block.new ≡ sealed (take check_at block.old) }
{
    seal_before(block, CHECK_AT);
}

// Writes the check of a block whose bytes from `end` up to the check are zero: the same check, in less time.
pub fn seal_before(block: &mut [u8], end: usize)
    requires { (length block.old ≡ block_size) × (end ≤ check_at) × (all_zero (part block.old end check_at) ≡ true) }
    ensures { block.new ≡ sealed (take check_at block.old) }
{
    let sum = check_before(&block[0..CHECK_AT], end);
    octets::put_u32(block, CHECK_AT, sum);
}

// The check A * 65536 + B of the first 508 of any bytes; refused where there are fewer.
pub fn block_check(block: &[u8]) -> Option<u32>
    ensures { result ≡ block_check_of block.now }
{
    if block.len() < CHECK_AT {
        return None;
    }
    Some(check_before(&block[0..CHECK_AT], CHECK_AT))
}
