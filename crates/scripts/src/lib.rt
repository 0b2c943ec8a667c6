// The lines of a hall script: what each of them asks for.
#![tactic(auto)]

pub mod command;
#[cfg(test)]
mod tests;
