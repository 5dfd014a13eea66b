// What a stored image holds, shown where it passes restore's checks: its counts and numbers, its label words, its messages.
ghost use Rattle.std.specs.Prelude.{◌≤◌, ◌≡◌};
ghost use Rattle.label_list.specs.Word.{word_count};
ghost use Rattle.message_numbers.specs.Reading.{no_part_for};
ghost use Rattle.image_numbers.specs.Contents.{refused_summary, whole_summary, summary_of, words_shown, words_of, held_of, ShowsHeld};

use crate::{SummaryNumbers, WordsNumbers};
use block0::Header;
use image::Counts;
use message_numbers::PartNumbers;

// A summary of an image that is refused.
fn refused_summary(answer: u32, block: u32) -> SummaryNumbers
    ensures { result ≡ refused_summary answer block }
{
    SummaryNumbers {
        answer: answer,
        block: block,
        kept: 0,
        released: 0,
        issued: 0,
        secured: 0,
        held: 0,
        pended: 0,
        labels: 0,
        timeout: 0,
        keepalive: 0,
        maxpdu: 0,
        marks: 0,
    }
}

// A summary of a sound image that has this block 0 and these counts.
fn whole_summary(h: Header, counts: Counts) -> SummaryNumbers
    requires { counts.labels ≤ word_count }
    ensures { result ≡ whole_summary h counts }
{
    SummaryNumbers {
        answer: 0,
        block: 0,
        kept: h.kept as u32,
        released: counts.released.0,
        issued: counts.issued.0,
        secured: counts.secured.0,
        held: counts.held as u32,
        pended: counts.pended as u32,
        labels: counts.labels as u32,
        timeout: h.timeout,
        keepalive: h.keepalive as u32,
        maxpdu: h.maxpdu as u32,
        marks: h.marks as u32,
    }
}

// The counts of an image as the image printer says them, with kept, the agreed timeout in milliseconds, the peer's parameters and the marks of
// byte 23; 12, 10, 11 with the block, and all else 0, where restore's checks refuse.
pub fn summarize(image: &[u8]) -> SummaryNumbers
    ensures { result ≡ summary_of image.now }
{
    let verdict = image::check_image(image);
    let answer = image::verdict_number(verdict);
    if answer != 0 {
        return refused_summary(answer, image::verdict_block(verdict) as u32);
    }
    whole_summary(image::header_of(image), image::counts_of(image))
}

// All label words of an image, from the start of `words` on, and how many are not zero; no word after them is touched. 12, 10, 11 with the block where restore's
// checks refuse, then 9 where `words` is too short: then none is written.
pub fn labels(image: &[u8], words: &mut [u32]) -> WordsNumbers
    ensures { words_shown result words.new ≡ words_of image.now words.old }
{
    let verdict = image::check_image(image);
    let answer = image::verdict_number(verdict);
    if answer != 0 {
        return WordsNumbers {
            answer: answer,
            block: image::verdict_block(verdict) as u32,
            count: 0,
        };
    }
    if words.len() < label_list::WORD_COUNT {
        return WordsNumbers {
            answer: 9,
            block: 0,
            count: 0,
        };
    }
    let labels = &mut words[0..label_list::WORD_COUNT];
    image::labels_of(image, labels);
    WordsNumbers {
        answer: 0,
        block: 0,
        count: label_list::count_listed(labels) as u32,
    }
}

fn no_part(answer: u32) -> PartNumbers
    ensures { result ≡ no_part_for answer }
{
    PartNumbers {
        answer: answer,
        start: 0,
        end: 0,
    }
}

// The message held at a place, 0 the oldest, as a part of the image; 12, 10, 11 where restore's checks refuse, 8 where none is held there, and then no part.
pub fn held(image: &[u8], place: u32) -> PartNumbers
    ensures value { result ≡ held_of image.now place }
    ensures message { ShowsHeld image.now place result }
{
    let answer = image::verdict_number(image::check_image(image));
    if answer != 0 {
        return no_part(answer);
    }
    let h = image::header_of(image);
    if h.held as u32 <= place {
        return no_part(8);
    }
    let start = image::held_start(image, place as usize);
    let end = start + image::held_message(image, place as usize).len();
    PartNumbers {
        answer: 0,
        start: start as u32,
        end: end as u32,
    }
}
