// Bytes that are all zero, looked at 128 at a time; the last 128 may overlap those before them.
ghost use Rattle.std.specs.Prelude.{◌+◌, ◌*◌, ◌≤◌, ◌<◌, ◌≡◌, length, take, drop, eqb};
ghost use Rattle.block.specs.Zeros.{all_zero};

use crate::rows;

// N times eight bytes from `at` on, joined bit by bit: zero where they all are.
#[tactic(auto, using(crate::proofs::ZeroBytes::all_zero_none, crate::proofs::ZeroParts::joined_more))]
fn joined<const N: usize>(s: &[u8], at: usize) -> u64
    requires { at + 8 * N ≤ length s.now }
    ensures { eqb result 0 ≡ all_zero (take (8 * N) (drop at s.now)) }
{
    let mut bits = 0;
    for i in 0..N {
        bits |= rows::get_eight(s, at + 8 * i);
    }
    bits
}

// Whether every byte is zero, byte by byte.
fn each_is_zero(s: &[u8]) -> bool
    ensures { result ≡ all_zero s.now }
{
    s.iter().all(|x| *x == 0)
}

// The same for fewer than 128 bytes: the first sixteen, 32 or 64 and the last, which may overlap.
fn few_are_zero(s: &[u8]) -> bool
    requires { length s.now < 128 }
    ensures { result ≡ all_zero s.now }
{
    if s.len() < 16 {
        return each_is_zero(s);
    }
    if s.len() < 32 {
        return joined::<2>(s, 0) | joined::<2>(s, s.len() - 16) == 0;
    }
    if s.len() < 64 {
        return joined::<4>(s, 0) | joined::<4>(s, s.len() - 32) == 0;
    }
    joined::<8>(s, 0) | joined::<8>(s, s.len() - 64) == 0
}

// Whether every byte is zero.
pub fn all_zero(s: &[u8]) -> bool
    ensures { result ≡ all_zero s.now }
{
    if s.len() < 128 {
        return few_are_zero(s);
    }
    for i in 0..s.len() / 128 {
        if joined::<16>(s, i * 128) != 0 {
            return false;
        }
    }
    joined::<16>(s, s.len() - 128) == 0
}
