// A stored image as numbers, as the C boundary shows it: what it holds, extended, converted.
#![tactic(auto)]

mod contents;
mod converting;
mod stored;

pub use contents::{held, labels, summarize};
pub use converting::{convert_back, convert_forward};
pub use stored::{block_check, extend, label, prefix_at, request_at};

// A Request that is open at a place of the label words: 1 and its message ID, or 0 and 0.
#[repr(C)]
#[derive(Clone, Copy)]
pub struct RequestNumbers {
    pub isopen: u32,
    pub id: u32,
}

// The prefix of the label that the word at a place lists: 1, its length in bits and its bits; or 0, 0 and 0.
#[repr(C)]
#[derive(Clone, Copy)]
pub struct PrefixNumbers {
    pub indexed: u32,
    pub length: u32,
    pub prefix: u32,
}

// What an image holds: 0, its counts as the image printer says them, the agreed timeout in milliseconds, the peer's parameters and the marks;
// or the answer, the block that it names, and all else 0.
#[repr(C)]
#[derive(Clone, Copy)]
pub struct SummaryNumbers {
    pub answer: u32,
    pub block: u32,
    pub kept: u32,
    pub released: u32,
    pub issued: u32,
    pub secured: u32,
    pub held: u32,
    pub pended: u32,
    pub labels: u32,
    pub timeout: u32,
    pub keepalive: u32,
    pub maxpdu: u32,
    pub marks: u32,
}

// The label words of an image: 0 and how many are not zero; or the answer and the block that it names.
#[repr(C)]
#[derive(Clone, Copy)]
pub struct WordsNumbers {
    pub answer: u32,
    pub block: u32,
    pub count: u32,
}

// An image extended to this release's size: 0 and the further blocks that were made, or 12 and none.
#[repr(C)]
#[derive(Clone, Copy)]
pub struct ExtendedNumbers {
    pub answer: u32,
    pub further: u32,
}

// An image converted: 0 and the bytes written, or the answer, the block that it names, and none.
#[repr(C)]
#[derive(Clone, Copy)]
pub struct ConvertedNumbers {
    pub answer: u32,
    pub block: u32,
    pub length: u32,
}
