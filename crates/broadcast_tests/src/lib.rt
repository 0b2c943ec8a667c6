// Tests of the sheet broadcast at one replica: each refusal with its place, what is said, and when a slot is delivered.
#![tactic(auto)]

#[cfg(test)]
mod four;
#[cfg(test)]
mod hearing;
#[cfg(test)]
mod members;
#[cfg(test)]
mod opening;
#[cfg(test)]
mod saying;
