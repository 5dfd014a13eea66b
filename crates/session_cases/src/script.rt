// Reads the script's text: parts between separators, decimal numbers, bytes in hexadecimal.
ghost use Rattle.std.specs.Prelude.{◌-◌, ◌≤◌, length};

// The first `count` bytes, or all where there are fewer.
pub fn first(bytes: &[u8], count: usize) -> &[u8]
    ensures { length result.now ≤ count }
{
    if count > bytes.len() {
        return bytes;
    }
    &bytes[..count]
}

// Where a separator first stands in a text; its end where it stands nowhere.
fn find(text: &[u8], separator: u8) -> usize {
    text.iter()
        .position(|&byte| byte == separator)
        .unwrap_or(text.len())
}

// The text in front of a separator; all of it where there is none.
pub fn before(text: &[u8], separator: u8) -> &[u8] {
    first(text, find(text, separator))
}

// The text behind a separator; nothing where there is none.
pub fn after(text: &[u8], separator: u8) -> &[u8]
    ensures { length result.now ≤ length text.now - 1 }
{
    let at = find(text, separator);
    if at >= text.len() {
        return &text[..0];
    }
    let start = at + 1;
    &text[start..]
}

// Whether a word is that one.
pub fn is(word: &[u8], name: &[u8]) -> bool {
    !octets::bytes_differ(word, name)
}

// The place of a word in a list of words; how many the list has where it is none of them.
pub fn place_in(list: &[u8], word: &[u8]) -> usize {
    let mut rest = list;
    let mut i: usize = 0;
    while rest.len() > 0 {
        if is(before(rest, b' '), word) {
            return i;
        }
        let next = after(rest, b' ');
        rest = next;
        i += 1;
    }
    i
}

// What stands for a number that is missing or can't be read.
pub const NONE: u32 = u32::MAX;

// A number with one more digit.
fn with_digit(n: u32, digit: u8) -> u32 {
    if digit < b'0' {
        return NONE;
    }
    if digit > b'9' {
        return NONE;
    }
    let longer = n as u64 * 10 + (digit - b'0') as u64;
    if longer > NONE as u64 {
        return NONE;
    }
    longer as u32
}

// A decimal number.
pub fn read_number(text: &[u8]) -> u32 {
    if text.len() == 0 {
        return NONE;
    }
    let mut n: u32 = 0;
    for &digit in text {
        n = with_digit(n, digit);
    }
    n
}

// The numbers of a line: the first names a place.
#[derive(Clone, Copy)]
pub struct Numbers {
    pub place: u32,
    pub second: u32,
    pub third: u32,
    pub fourth: u32,
}

// Four decimal numbers, a space between two.
pub fn read_numbers(text: &[u8]) -> Numbers {
    let after1 = after(text, b' ');
    let after2 = after(after1, b' ');
    Numbers {
        place: read_number(before(text, b' ')),
        second: read_number(before(after1, b' ')),
        third: read_number(before(after2, b' ')),
        fourth: read_number(after(after2, b' ')),
    }
}

// The size of a message that can't be read.
pub const UNREADABLE: usize = 513;

// What a hexadecimal digit stands for; 16 where it is none.
fn digit_value(digit: u8) -> u16 {
    if digit < b'0' {
        return 16;
    }
    if digit <= b'9' {
        return (digit - b'0') as u16;
    }
    if digit < b'a' {
        return 16;
    }
    if digit <= b'f' {
        return (digit - 87) as u16;
    }
    16
}

// The byte of two hexadecimal digits; 256 where they are none.
fn byte_value(high: u8, low: u8) -> u16 {
    let h = digit_value(high);
    let l = digit_value(low);
    if h > 15 {
        return 256;
    }
    if l > 15 {
        return 256;
    }
    h * 16 + l
}

// Bytes in hexadecimal, put to the start of `bytes`; how many, or UNREADABLE.
pub fn read_hex(text: &[u8], bytes: &mut [u8]) -> usize {
    let size = text.len() / 2;
    if size * 2 != text.len() {
        return UNREADABLE;
    }
    if size > bytes.len() {
        return UNREADABLE;
    }
    for i in 0..size {
        let byte = byte_value(text[2 * i], text[2 * i + 1]);
        if byte > 255 {
            return UNREADABLE;
        }
        bytes[i] = byte as u8;
    }
    size
}
