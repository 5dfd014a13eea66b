// The C boundary, as include/ldp_ft.h declares it: each function `ldp_ft_NAME` is the function NAME of a crate below, under the same contract;
// the version alone is of this crate.
#![tactic(auto)]

mod images;
mod messages;
mod session;
mod version;
