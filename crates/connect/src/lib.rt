// How a session begins and is kept up: a new image, a restored one, our Init and our KeepAlive.
#![tactic(auto)]

mod starting;
mod writing;

pub use starting::{format, restore};
pub use writing::{keepalive, open_session};
