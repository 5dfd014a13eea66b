// Receive: one message of the peer's, on a session that is up.
#![tactic(auto)]

mod answering;
mod judging;
mod labels;
mod reading;
mod room;
mod taking;

pub use taking::receive;
