// A run of 32-bit words in lent bytes, loaded into a lent slice of numbers and stored back.
ghost use Rattle.std.specs.Prelude.{◌+◌, ◌*◌, ◌≤◌, ◌≡◌, length};
ghost use Rattle.octets.specs.Laid.{laid};
ghost use Rattle.block.specs.Run.{words_at, word_bytes};

// Fills `words` with the words of `s` from `at` on.
pub fn load_words(s: &[u8], at: usize, words: &mut [u32])
    requires { at + length words.old * 4 ≤ length s.now }
    ensures { words.new ≡ words_at (length words.old) s.now at }
{
    for (i, word) in words.iter_mut().enumerate() {
        *word = octets::get_u32(s, at + i * 4);
    }
}

// Writes `words` into `s` from `at` on; every other byte stays.
pub fn store_words(s: &mut [u8], at: usize, words: &[u32])
    requires { at + length words.now * 4 ≤ length s.old }
    ensures { s.new ≡ laid s.old at (word_bytes (length words.now) words.now) }
{
    for (i, word) in words.iter().enumerate() {
        octets::put_u32(s, at + i * 4, *word);
    }
}
