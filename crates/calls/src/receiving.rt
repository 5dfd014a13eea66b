// What a received message is asked first.
ghost use Rattle.std.specs.Prelude.{◌≡◌};
ghost use Rattle.protocol.specs.Received.{is_init};

use message::MessageType;

// Whether it is an Init.
pub fn is_init(t: MessageType) -> bool
    ensures { result ≡ is_init t }
{
    match t {
        MessageType::Notification => false,
        MessageType::Initialization => true,
        MessageType::KeepAlive => false,
        MessageType::Address => false,
        MessageType::AddressWithdraw => false,
        MessageType::Mapping => false,
        MessageType::Request => false,
        MessageType::Withdraw => false,
        MessageType::Release => false,
        MessageType::Abort => false,
        MessageType::Other => false,
    }
}
