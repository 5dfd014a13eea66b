// What a stored image says, for people: its counts, or why it is refused, as lines of text.
#![tactic(auto)]

ghost use Rattle.std.specs.Prelude.{◌≡◌};
ghost use Rattle.image_report.specs.Report.{refusal_of, report_of};

use image::{Counts, ImageFault};

pub mod lines;

// A refusal: its number, and the block that it names, 0 where none applies. A converted image is refused for more than the
// image's own faults, so it is no `ImageFault`.
#[derive(Clone, Copy)]
pub struct Refusal {
    pub answer: u32,
    pub block: usize,
}

impl From<ImageFault> for Refusal {
    ghost from_gives = { λ fault r. r ≡ refusal_of fault };

    fn from(fault: ImageFault) -> Refusal {
        Refusal {
            answer: image::verdict_number(Err(fault)),
            block: image::verdict_block(Err(fault)),
        }
    }
}

// What any bytes say that may be an image: released, issued, secured, held, pended, label words in use; or a refusal's
// number and block.
pub fn report_of(image: &[u8]) -> Result<Counts, Refusal>
    ensures { result ≡ report_of image.now }
{
    image::check_image(image)?;
    Ok(image::counts_of(image))
}
