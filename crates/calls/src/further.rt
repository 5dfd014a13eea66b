// Stores of the further blocks, which the owner stores where their bytes changed: they changed exactly where another ID or entry stood at the place.
ghost use Rattle.std.specs.Prelude.{◌<◌, ◌≡◌, length};
ghost use Rattle.label_list.specs.Find.{FoundIn};
ghost use Rattle.label_list.specs.Word.{word_count};
ghost use Rattle.image.specs.Sizes.{image_size};
ghost use Rattle.image.specs.State.{decode};
ghost use Rattle.calls.specs.Further.{further_told};
ghost use Rattle.calls.specs.Storing.{put_id, put-entry, entry_put, further_stored};

use ft_number::MessageId;

// Stores an ID at its place of block 65; the bit of that block, 0 where the ID stood there already.
pub fn store_id(image: &mut [u8], place: usize, id: MessageId) -> u32
    requires { (length image.old ≡ image_size) × (place < word_count) }
    ensures { (image.new ≡ further_stored image.old (put_id place id)) × (result ≡ further_told image.old (put_id place id)) }
{
    let before = image::id_at(image, place);
    image::store_id(image, place, id);
    if before == id.0 {
        return 0;
    }
    1
}

// Stores an entry at its place of block 66 or 67; the bit of that block, 0 where the entry stood there already.
pub fn store_entry(image: &mut [u8], place: usize, entry: u64) -> u32
    requires { (length image.old ≡ image_size) × (place < word_count) }
    ensures { (image.new ≡ further_stored image.old (put-entry place entry)) × (result ≡ further_told image.old (put-entry place entry)) }
{
    let before = image::entry_at(image, place);
    image::store_entry(image, place, entry);
    if before == entry {
        return 0;
    }
    if place < fec_index::ENTRY_COUNT {
        return 2;
    }
    4
}

// Stores the entry of a label that takes a word, at the place of that word; nothing where it takes none.
pub fn store_taken(image: &mut [u8], place: Option<usize>, entry: u64) -> u32
    requires { (length image.old ≡ image_size) × FoundIn (decode image.old).labels place }
    ensures { (image.new ≡ further_stored image.old (entry_put place entry)) × (result ≡ further_told image.old (entry_put place entry)) }
{
    match place {
        Some(i) => store_entry(image, i, entry),
        None => 0,
    }
}
