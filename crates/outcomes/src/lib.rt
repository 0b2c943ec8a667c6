// What the calls of a replica come to, over its three tables.
#![tactic(auto)]

pub mod opening_record;
