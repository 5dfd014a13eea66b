// Stores of block 0, which the owner stores where its bytes changed: they changed exactly where block 0 says something else.
ghost use Rattle.std.specs.Prelude.{true, false, ◌≢◌, ◌≡◌, length};
ghost use Rattle.octets.specs.Differ.{differ};
ghost use Rattle.label_list.specs.Word.{word_count};
ghost use Rattle.image.specs.Sizes.{image_size, block};
ghost use Rattle.image.specs.State.{decode, store0};
ghost use Rattle.image.specs.Verdict.{IsSound};

use block0::Header;

// Whether two headers are the same.
fn same_numbers(a: Header, b: Header) -> bool
    ensures { (result ≡ true → a ≡ b) × (result ≡ false → a ≢ b) }
{
    a == b
}

// Whether the image says these numbers and words already: each word is compared where it stands, up to the first that is another.
fn says(image: &[u8], h: Header, words: &[u32]) -> bool
    requires { (length image.now ≡ image_size) × (length words.now ≡ word_count) }
    ensures { (result ≡ true → (h ≡ (decode image.now).header) × (words.now ≡ (decode image.now).labels)) × (result ≡ false → h ≡ (decode image.now).header → words.now ≢ (decode image.now).labels) }
{
    if !same_numbers(h, image::header_of(image)) {
        return false;
    }
    for (i, &word) in words.iter().enumerate() {
        if word != image::label_at(image, i) {
            return false;
        }
    }
    true
}

// Stores block 0; whether its bytes changed. What the image says already is not written again.
pub fn store_changed(image: &mut [u8], h: Header, words: &[u32]) -> bool
    requires { IsSound image.old × (length words.now ≡ word_count) }
    ensures { (image.new ≡ store0 image.old h words.now) × (result ≡ differ (block image.old 0) (block image.new 0)) }
{
    if says(image, h, words) {
        return false;
    }
    image::store_block0(image, h, words);
    true
}

// The same where the label words stay.
pub fn store_numbers(image: &mut [u8], h: Header) -> bool
    requires { IsSound image.old }
    ensures { (image.new ≡ store0 image.old h (decode image.old).labels) × (result ≡ differ (block image.old 0) (block image.new 0)) }
{
    if same_numbers(h, image::header_of(image)) {
        return false;
    }
    image::store_header(image, h);
    true
}
