// Text put into lent bytes, one piece after the other: words, decimal numbers, bytes in hexadecimal.
#![tactic(auto)]

ghost use Rattle.std.specs.Prelude.{◌+◌, ◌*◌, ◌≤◌, ◌<◌, ◌≡◌, length};
ghost use Rattle.io.specs.Digits.{hex_digit_ascii};
ghost use Rattle.text.specs.Text.{decimal, hex, Put};

// Puts a text from `at` on and answers where it ends; every other byte stays.
pub fn put_text(out: &mut [u8], at: usize, text: &[u8]) -> usize
    requires { at + length text.now ≤ length out.old }
    ensures { Put out.old at text.now out.new result }
{
    octets::copy_to(out, at, text);
    at + text.len()
}

// Puts a number in decimal from `at` on, with no zero in front, at most 20 bytes, and answers where it ends.
#[tactic(auto, using(crate::proofs::Digits::digits_decimal))]
pub fn put_decimal(out: &mut [u8], at: usize, n: u64) -> usize
    requires { at + 20 ≤ length out.old }
    ensures put { Put out.old at (decimal n) out.new result }
    ensures upper_bound { result ≤ at + 20 }
{
    let mut digits = [0u8; 20];
    let count = io::decimal(n, &mut digits);
    put_text(out, at, &digits[..count])
}

// The lower-case digit of a number below 16.
fn digit(d: u8) -> u8
    requires { d < 16 }
    ensures { result ≡ hex_digit_ascii d }
{
    if d < 10 { b'0' + d } else { b'a' - 10 + d }
}

// Puts bytes in hexadecimal, two lower-case digits each, from `at` on and answers where they end.
pub fn put_hex(out: &mut [u8], at: usize, bytes: &[u8]) -> usize
    requires { at + 2 * length bytes.now ≤ length out.old }
    ensures put { Put out.old at (hex bytes.now) out.new result }
    ensures value { result ≡ at + 2 * length bytes.now }
{
    for (i, byte) in bytes.iter().enumerate() {
        let high = digit(byte / 16);
        let low = digit(byte % 16);
        out[at + 2 * i] = high;
        out[at + 2 * i + 1] = low;
    }
    at + 2 * bytes.len()
}
