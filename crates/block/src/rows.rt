// A block's words, summed in rows of eight: two stand side by side in a number, so that one addition sums both. A word is read with its bytes
// swapped, as the machine reads it; modulo 65,535 that is a factor of 256, and so is its undoing, once at the end.
ghost use Rattle.std.specs.Prelude.{◌+◌, ◌*◌, ◌/◌, ◌%◌, ◌≤◌, ◌<◌, true, ◌≡◌, length, drop};
ghost use Rattle.block.specs.Check.{check_at, check_of};
ghost use Rattle.block.specs.Rows.{le_at, paired, InRows, Room};
ghost use Rattle.block.specs.Zeros.{all_zero};

use crate::remainder::remainder;

// The low 16 bits of each half of a number, the low half, and the low bytes of two words.
const LOW_WORDS: u64 = 0x0000FFFF0000FFFF;

const LOW_HALF: u64 = 0x00000000FFFFFFFF;

const LOW_BYTES: u32 = 0x00FF00FF;

// The sums of all words, of those in the later eight bytes of their rows, of those at odd places, and of the first sum after each row.
#[derive(Clone, Copy)]
struct Rows {
    all: u64,
    second: u64,
    odd: u64,
    running: u64,
}

// Eight bytes: at constant places the compiler reads them at once.
fn eight(s: &[u8]) -> u64
    requires { length s.now ≡ 8 }
    ensures { result ≡ le_at 8 s.now 0 }
{
    u64::from_le_bytes([s[0], s[1], s[2], s[3], s[4], s[5], s[6], s[7]])
}

// The eight bytes from `at` on.
pub fn get_eight(s: &[u8], at: usize) -> u64
    requires { at + 8 ≤ length s.now }
    ensures { result ≡ le_at 8 s.now at }
{
    eight(&s[at..at + 8])
}

// The word at `at`.
fn word(s: &[u8], at: usize) -> u64
    requires { at + 2 ≤ length s.now }
    ensures { result ≡ le_at 2 s.now at }
{
    u64::from(u16::from_le_bytes([s[at], s[at + 1]]))
}

// The words at `at` and four bytes on, each in a half.
fn two_words(s: &[u8], at: usize) -> u64
    requires { at + 8 ≤ length s.now }
    ensures { result ≡ paired (le_at 2 s.now at) (le_at 2 s.now (at + 4)) }
{
    get_eight(s, at) & LOW_WORDS
}

// One row more, by the words at even and at odd places of its first eight bytes, and then of its later eight.
fn add_row(sums: Rows, even: u64, odd: u64, even2: u64, odd2: u64) -> Rows
    requires { Room sums.all sums.second sums.odd sums.running even odd even2 odd2 }
    ensures { (result.all ≡ sums.all + (even + odd + (even2 + odd2))) × (result.second ≡ sums.second + (even2 + odd2)) × (result.odd ≡ sums.odd + (odd + odd2)) × (result.running ≡ sums.running + result.all) }
{
    let later = even2 + odd2;
    let all = sums.all + (even + odd + later);
    Rows {
        all: all,
        second: sums.second + later,
        odd: sums.odd + (odd + odd2),
        running: sums.running + all,
    }
}

// The sums of so many rows, which are whole.
fn whole_rows(s: &[u8], rows: usize) -> Rows
    requires { (rows ≤ 31) × (length s.now ≡ check_at) }
    ensures { InRows (le_at 2 s.now) rows result.all result.second result.odd result.running }
{
    let mut sums = Rows {
        all: 0,
        second: 0,
        odd: 0,
        running: 0,
    };
    for i in 0..rows {
        let at = i * 16;
        sums = add_row(
            sums,
            two_words(s, at),
            two_words(s, at + 2),
            two_words(s, at + 8),
            two_words(s, at + 10),
        );
    }
    sums
}

// The same where the 32nd, which lacks its last two words, may be among them.
fn sum_rows(s: &[u8], rows: usize) -> Rows
    requires { (rows ≤ 32) × (length s.now ≡ check_at) }
    ensures { InRows (le_at 2 s.now) rows result.all result.second result.odd result.running }
{
    if rows < 32 {
        return whole_rows(s, rows);
    }
    add_row(
        whole_rows(s, 31),
        two_words(s, 496),
        two_words(s, 498),
        word(s, 504),
        word(s, 506),
    )
}

fn high_half(x: u64) -> u64
    ensures { (result ≡ x / 4294967296) × (result < 4294967296) }
{
    x >> 32
}

// Both halves of a number, added.
fn halves(x: u64) -> u64
    ensures { (result ≡ x / 4294967296 + x % 4294967296) × (result < 8589934592) }
{
    (x >> 32) + (x & LOW_HALF)
}

// Two words side by side, each with its bytes swapped back: 256 times as much, modulo 65,535.
#[tactic(auto, using(crate::proofs::Subtraction::both_swapped))]
fn swapped(high: u32, low: u32) -> u32
    requires { (high < 65536) × (low < 65536) }
    ensures { result ≡ (high % 256 * 256 + high / 256) * 65536 + (low % 256 * 256 + low / 256) }
{
    let both = high * 65536 + low;
    ((both & LOW_BYTES) << 8) + ((both >> 8) & LOW_BYTES)
}

// The check by the sum of the words and their sum by weight, both of swapped words. The 1 that A starts from counts 254 times in B; their bytes too
// are swapped here, so that the sums are small and few shifts are made: 254 words are below 65,535 * 2 ^ 8, their 32,385 weights below 2 ^ 15.
fn check_by(a: u64, b: u64) -> u32
    requires { (a ≤ 254 * 65535) × (b ≤ 32385 * 65535) }
    ensures { result ≡ (1 + 256 * a) % 65535 * 65536 + (254 + 256 * b) % 65535 }
{
    swapped(
        remainder((0x0100 + a) as u32, 8),
        remainder((0xFE00 + b) as u32, 15),
    )
}

// The check of bytes that are zero after so many rows. Word p of row j counts 254 - 8j - p times in B: 8 (rows - j) times by the running sum,
// less its place p, and rest - 2 times for the words behind the rows.
pub fn check_rows(s: &[u8], rows: usize) -> u32
    requires { (rows ≤ 32) × (length s.now ≡ check_at) × (all_zero (drop (rows * 16) s.now) ≡ true) }
    ensures { result ≡ check_of s.now }
{
    let sums = sum_rows(s, rows);
    let a = halves(sums.all);
    let weighed = halves(8 * sums.running - (sums.odd + 4 * sums.second));
    let rest = (256 - 8 * rows) as u64;
    check_by(a, weighed + rest * a - 2 * (a + high_half(sums.all)))
}
