// Closing: whether a replica can close, the entries of its closing list, and the closing record.
#![tactic(auto)]

pub mod close;
pub mod list;
pub mod record;
pub mod view;
