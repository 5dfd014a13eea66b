// What is made of a whole image: a new one, one released, one as after a break.
ghost use Rattle.std.specs.Prelude.{◌≡◌, length};
ghost use Rattle.block0.specs.Coded.{unprotected};
ghost use Rattle.image.specs.Events.{size_verdict, formatted_image, release_of, break_of};
ghost use Rattle.image.specs.Sizes.{image_size};
ghost use Rattle.image.specs.State.{decode};

use crate::ImageFault;
use label_list::SweepRule;

// Released: block 0 with kept 0. The slots keep their bytes.
pub fn release(image: &mut [u8])
    requires { length image.old ≡ image_size }
    ensures { image.new ≡ release_of image.old }
{
    block0::write_released(&mut image[0..block::BLOCK_SIZE]);
}

// A new image: released, with slots of zeros and empty further blocks. Bytes of another size are left as they are (12).
pub fn format(image: &mut [u8]) -> Result<(), ImageFault>
    ensures { (result ≡ size_verdict image.old) × (image.new ≡ formatted_image image.old) }
{
    if image.len() != crate::IMAGE_SIZE {
        return Err(ImageFault::WrongSize);
    }
    octets::zero_to(image, 0, crate::IMAGE_SIZE);
    crate::clear_from(image, crate::REQUEST_BLOCK);
    release(image);
    Ok(())
}

// Whether a break frees a label word. Where none is freed the image stays as it is.
pub fn has_unprotected(image: &[u8]) -> bool
    requires { length image.now ≡ image_size }
    ensures { result ≡ unprotected (decode image.now).labels }
{
    block0::has_unprotected(crate::block_at(image, 0))
}

// As after a break: the label words of code 6 are freed, everything else stays, and block 0 is sealed again.
pub fn free_unprotected(image: &mut [u8])
    requires { length image.old ≡ image_size }
    ensures { image.new ≡ break_of image.old }
{
    let h = crate::header_of(image);
    let mut words = [0u32; label_list::WORD_COUNT];
    crate::labels_of(image, &mut words);
    label_list::sweep(&mut words, SweepRule::AfterBreak);
    crate::store_block0(image, h, &words);
}
