// Big-endian fields of 8, 16 and 32 bits at a place of lent bytes, and runs of bytes copied or cleared.
#![tactic(auto)]

ghost use Rattle.std.specs.Prelude.{◌+◌, ◌≤◌, ◌≡◌, length, replicate};
ghost use Rattle.octets.specs.Be.{be_at, bytes};
ghost use Rattle.octets.specs.Differ.{differ};
ghost use Rattle.octets.specs.Laid.{laid};

// The byte at `at`.
pub fn get_u8(s: &[u8], at: usize) -> u8
    requires { at + 1 ≤ length s.now }
    ensures { result ≡ be_at 1 s.now at }
{
    s[at]
}

// The big-endian 16-bit number at `at`.
pub fn get_u16(s: &[u8], at: usize) -> u16
    requires { at + 2 ≤ length s.now }
    ensures { result ≡ be_at 2 s.now at }
{
    u16::from_be_bytes([s[at], s[at + 1]])
}

// The big-endian 32-bit number at `at`.
pub fn get_u32(s: &[u8], at: usize) -> u32
    requires { at + 4 ≤ length s.now }
    ensures { result ≡ be_at 4 s.now at }
{
    u32::from_be_bytes([s[at], s[at + 1], s[at + 2], s[at + 3]])
}

// Writes the byte at `at`; every other byte stays.
#[tactic(auto, unfolding(crate::specs::Laid::laid))]
pub fn put_u8(s: &mut [u8], at: usize, v: u8)
    requires { at + 1 ≤ length s.old }
    ensures { s.new ≡ laid s.old at (bytes 1 v) }
{
    s[at] = v;
}

// Writes the 16-bit number at `at`, big-endian; every other byte stays.
#[tactic(auto, using(crate::proofs::Laid::laid_put))]
pub fn put_u16(s: &mut [u8], at: usize, v: u16)
    requires { at + 2 ≤ length s.old }
    ensures { s.new ≡ laid s.old at (bytes 2 v) }
{
    s[at..at + 2].copy_from_slice(&v.to_be_bytes());
}

// Writes the 32-bit number at `at`, big-endian; every other byte stays.
#[tactic(auto, using(crate::proofs::Laid::laid_put))]
pub fn put_u32(s: &mut [u8], at: usize, v: u32)
    requires { at + 4 ≤ length s.old }
    ensures { s.new ≡ laid s.old at (bytes 4 v) }
{
    s[at..at + 4].copy_from_slice(&v.to_be_bytes());
}

// Copies `m` into `s` from `at` on; every other byte stays.
#[tactic(auto, using(crate::proofs::Laid::laid_none, crate::proofs::Laid::laid_next))]
pub fn copy_to(s: &mut [u8], at: usize, m: &[u8])
    requires { at + length m.now ≤ length s.old }
    ensures { s.new ≡ laid s.old at m.now }
{
    // A loop: `copy_from_slice` of any length calls memmove, which the archive must not need (tests/c/stack.py).
    for (i, x) in m.iter().enumerate() {
        s[at + i] = *x;
    }
}

// Writes `n` zeros into `s` from `at` on; every other byte stays.
#[tactic(auto, using(crate::proofs::Laid::laid_none, crate::proofs::Fill::laid_zero))]
pub fn zero_to(s: &mut [u8], at: usize, n: usize)
    requires { at + n ≤ length s.old }
    ensures { s.new ≡ laid s.old at (replicate n 0) }
{
    // A loop: `fill` stores the last byte apart from the others, behind their memset, and was slower at every length.
    for i in 0..n {
        s[at + i] = 0;
    }
}

// Whether two runs of bytes, also of other lengths, are not the same.
#[tactic(auto, using(crate::proofs::Differ::differ_is))]
pub fn bytes_differ(a: &[u8], b: &[u8]) -> bool
    ensures { result ≡ differ a.now b.now }
{
    a != b
}
