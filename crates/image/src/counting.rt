// What a sound image counts, as the image printer says it.
ghost use Rattle.std.specs.Prelude.{true, ◌≡◌};
ghost use Rattle.ft_number.specs.Circle.{steps_of};
ghost use Rattle.block0.specs.Fields.{at_most};
ghost use Rattle.image.specs.Counts.{pended_of, counts_of};
ghost use Rattle.image.specs.State.{decode};
ghost use Rattle.image.specs.Verdict.{IsSound};

use crate::Counts;
use block0::Header;

// Held messages that have no number yet.
fn count_pended(h: Header) -> u16
    requires { at_most h.held (steps_of h.released.0 h.issued.0) ≡ true }
    ensures { result ≡ pended_of h }
{
    match ft_number::steps_between(h.released, h.issued) {
        Some(n) => h.held - n as u16,
        None => h.held,
    }
}

// Released, issued, secured, held, pended, and the label words that are not zero.
pub fn counts_of(image: &[u8]) -> Counts
    requires { IsSound image.now }
    ensures { result ≡ counts_of (decode image.now) }
{
    let h = crate::header_of(image);
    let mut words = [0u32; label_list::WORD_COUNT];
    crate::labels_of(image, &mut words);
    let released = h.released;
    let issued = h.issued;
    let secured = h.secured;
    Counts {
        released: released,
        issued: issued,
        secured: secured,
        held: h.held,
        pended: count_pended(h),
        labels: label_list::count_listed(&words),
    }
}
