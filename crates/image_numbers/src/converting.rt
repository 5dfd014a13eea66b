// A stored image moved from one version of the image to the other.
ghost use Rattle.std.specs.Prelude.{◌<◌, ◌≡◌};
ghost use Rattle.block0.specs.declared.Version.TheVariants.{One, Two};
ghost use Rattle.image.specs.Sizes.{block_count};
ghost use Rattle.convert.specs.Convert.{convert_of, conversion_block};
ghost use Rattle.image_numbers.specs.Converting.{converted_numbers, converted_shown, conversion_shown};

use crate::ConvertedNumbers;
use convert::ConversionFault;

fn converted_numbers(c: Result<(), ConversionFault>) -> ConvertedNumbers
    requires { conversion_block c < block_count }
    ensures { result ≡ converted_numbers c }
{
    let answer = convert::conversion_number(c);
    let block = convert::conversion_block(c) as u32;
    if answer != 0 {
        return ConvertedNumbers {
            answer: answer,
            block: block,
            length: 0,
        };
    }
    ConvertedNumbers {
        answer: answer,
        block: block,
        length: image::IMAGE_SIZE as u32,
    }
}

// Version 1 to version 2. 12, 10, 11 with the block where restore's checks of version 1 refuse, 16 where the last of the 120 label words is in use, 9 where the
// output is too short: then no byte is written.
pub fn convert_forward(image: &[u8], out: &mut [u8]) -> ConvertedNumbers
    ensures { converted_shown result out.new ≡ conversion_shown (convert_of One image.now out.old) }
{
    converted_numbers(convert::forward(image, out))
}

// Version 2 to version 1, by the same rule; 16 where the agreed timeout is not whole seconds up to 65,535.
pub fn convert_back(image: &[u8], out: &mut [u8]) -> ConvertedNumbers
    ensures { converted_shown result out.new ≡ conversion_shown (convert_of Two image.now out.old) }
{
    converted_numbers(convert::back(image, out))
}
