// The Request of ours that a received message answers: its ID, and the place of its word.
ghost use Rattle.std.specs.Prelude.{◌≡◌, length};
ghost use Rattle.label_list.specs.Requests.{open_at};
ghost use Rattle.label_list.specs.Word.{word_count};
ghost use Rattle.image.specs.Sizes.{image_size};
ghost use Rattle.image.specs.State.{stored_ids};
ghost use Rattle.protocol.specs.Labels.{answered_by, answers, answered_at};
ghost use Rattle.receive.specs.Words.{table_on};

use ft_number::MessageId;
use message::{Message, MessageType};

// What a message of that type answers: a Notification the ID in its Status, a Mapping the one in its Label Request Message ID.
fn answered_by(
    t: MessageType,
    status: Option<MessageId>,
    request: Option<MessageId>,
) -> Option<MessageId>
    ensures { result ≡ answered_by t status request }
{
    match t {
        MessageType::Notification => status,
        MessageType::Initialization => None,
        MessageType::KeepAlive => None,
        MessageType::Address => None,
        MessageType::AddressWithdraw => None,
        MessageType::Mapping => request,
        MessageType::Request => None,
        MessageType::Withdraw => None,
        MessageType::Release => None,
        MessageType::Abort => None,
        MessageType::Other => None,
    }
}

// The ID of the Request that a message answers.
pub fn answered_id(g: Message) -> Option<MessageId>
    ensures { result ≡ answers g }
{
    let t = g.typename;
    let status = g.statusid;
    let request = g.requestid;
    answered_by(t, status, request)
}

// The place of the open Request with that ID, by the IDs that the image bears.
fn find_open(image: &[u8], words: &[u32], id: MessageId) -> Option<usize>
    requires { length image.now ≡ image_size }
    ensures { result ≡ open_at id words.now (stored_ids image.now) }
{
    let mut ids = [0u32; word_block::PLACE_COUNT];
    image::ids_of(image, &mut ids);
    label_list::find_request(words, &ids, id)
}

// The place of the open Request that a message answers; of one that names none the IDs are not read.
pub fn answered_place(image: &[u8], words: &[u32], g: Message) -> Option<usize>
    requires { (length image.now ≡ image_size) × (length words.now ≡ word_count) }
    ensures { result ≡ answered_at (table_on image.now words.now) g }
{
    match answered_id(g) {
        None => None,
        Some(id) => find_open(image, words, id),
    }
}
