// The peer's Init: how it is judged, and the session that begins with it.
#![tactic(auto)]

mod beginning;
mod judging;

pub use beginning::init_received;
