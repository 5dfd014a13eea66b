// The session's ten public calls, in one place. Each takes every input; specs/Call.antt lists them, and proofs/ has what holds of them all.
#![tactic(auto)]

pub use connect::{format, keepalive, open_session, restore};
pub use init::init_received;
pub use receive::receive;
pub use send::send_next;
pub use submit::submit;
pub use timers::{connection_failed, time_passed};
