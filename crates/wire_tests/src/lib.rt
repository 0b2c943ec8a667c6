// Tests of sheets and messages: worked bytes, and each refusal with its place, as tables.
#![tactic(auto)]

#[cfg(test)]
mod readings;
#[cfg(test)]
mod sheets_bytes;
#[cfg(test)]
mod writings;
