// An image that an earlier release stored is made one of this release.
ghost use Rattle.std.specs.Prelude.{◌≡◌};
ghost use Rattle.image.specs.Extend.{extend_verdict, extend_of};

use crate::ImageFault;

// The sizes of an image before: block 0 and the slots; and block 65 behind them.
const FIRST_SIZE: usize = crate::REQUEST_BLOCK * block::BLOCK_SIZE;

const SECOND_SIZE: usize = crate::INDEX_BLOCK * block::BLOCK_SIZE;

// Empty further blocks behind the bytes stored; these stay, and are not looked at. An image of another size, or another
// count of bytes stored: 12, and nothing is changed.
pub fn extend(image: &mut [u8], stored: usize) -> Result<(), ImageFault>
    ensures { (result ≡ extend_verdict image.old stored) × (image.new ≡ extend_of image.old stored) }
{
    if image.len() != crate::IMAGE_SIZE {
        return Err(ImageFault::WrongSize);
    }
    if stored == FIRST_SIZE {
        crate::clear_from(image, crate::REQUEST_BLOCK);
        return Ok(());
    }
    if stored == SECOND_SIZE {
        crate::clear_from(image, crate::INDEX_BLOCK);
        return Ok(());
    }
    Err(ImageFault::WrongSize)
}
