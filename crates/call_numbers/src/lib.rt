// The ten calls of the session with numbers for enums, as the C boundary has them.
#![tactic(auto)]

mod running;
mod starting;

pub use running::{connection_failed, keepalive, receive, send_next, submit, time_passed};
pub use starting::{format, init_received, open, restore};
