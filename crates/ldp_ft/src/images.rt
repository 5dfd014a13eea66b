// What a stored image holds; an image extended, converted.
ghost use Rattle.std.specs.Prelude.{◌≡◌};
ghost use Rattle.block.specs.Check.{block_check_of};
ghost use Rattle.block0.specs.declared.Version.TheVariants.{One, Two};
ghost use Rattle.image.specs.Extend.{extend_verdict, extend_of};
ghost use Rattle.convert.specs.Convert.{convert_of};
ghost use Rattle.image_numbers.specs.Contents.{summary_of, words_shown, words_of, held_of, ShowsHeld};
ghost use Rattle.image_numbers.specs.Converting.{converted_shown, conversion_shown};
ghost use Rattle.image_numbers.specs.Stored.{check_number, label_at, open_request, prefix_at, extended_numbers};

use image_numbers::{
    ConvertedNumbers, ExtendedNumbers, PrefixNumbers, RequestNumbers, SummaryNumbers, WordsNumbers,
};
use message_numbers::PartNumbers;

#[unsafe(no_mangle)]
pub extern "C" fn ldp_ft_summarize(image: &[u8]) -> SummaryNumbers
    ensures { result ≡ summary_of image.now }
{
    image_numbers::summarize(image)
}

#[unsafe(no_mangle)]
pub extern "C" fn ldp_ft_labels(image: &[u8], words: &mut [u32]) -> WordsNumbers
    ensures { words_shown result words.new ≡ words_of image.now words.old }
{
    image_numbers::labels(image, words)
}

#[unsafe(no_mangle)]
pub extern "C" fn ldp_ft_held(image: &[u8], place: u32) -> PartNumbers
    ensures value { result ≡ held_of image.now place }
    ensures message { ShowsHeld image.now place result }
{
    image_numbers::held(image, place)
}

#[unsafe(no_mangle)]
pub extern "C" fn ldp_ft_block_check(block: &[u8]) -> u32
    ensures { result ≡ check_number (block_check_of block.now) }
{
    image_numbers::block_check(block)
}

#[unsafe(no_mangle)]
pub extern "C" fn ldp_ft_label(image: &[u8], place: u32) -> u32
    ensures { result ≡ label_at image.now place }
{
    image_numbers::label(image, place)
}

#[unsafe(no_mangle)]
pub extern "C" fn ldp_ft_request_at(image: &[u8], place: u32) -> RequestNumbers
    ensures { result ≡ open_request image.now place }
{
    image_numbers::request_at(image, place)
}

#[unsafe(no_mangle)]
pub extern "C" fn ldp_ft_prefix_at(image: &[u8], place: u32) -> PrefixNumbers
    ensures { result ≡ prefix_at image.now place }
{
    image_numbers::prefix_at(image, place)
}

#[unsafe(no_mangle)]
pub extern "C" fn ldp_ft_extend(image: &mut [u8], stored: usize) -> ExtendedNumbers
    ensures { (result ≡ extended_numbers (extend_verdict image.old stored) stored) × (image.new ≡ extend_of image.old stored) }
{
    image_numbers::extend(image, stored)
}

#[unsafe(no_mangle)]
pub extern "C" fn ldp_ft_convert_forward(image: &[u8], out: &mut [u8]) -> ConvertedNumbers
    ensures { converted_shown result out.new ≡ conversion_shown (convert_of One image.now out.old) }
{
    image_numbers::convert_forward(image, out)
}

#[unsafe(no_mangle)]
pub extern "C" fn ldp_ft_convert_back(image: &[u8], out: &mut [u8]) -> ConvertedNumbers
    ensures { converted_shown result out.new ≡ conversion_shown (convert_of Two image.now out.old) }
{
    image_numbers::convert_back(image, out)
}
