// Tests of a replica's calls: each refusal with its place, steps, shares, closing, and whole evenings.
#![tactic(auto)]

#[cfg(test)]
mod closed;
#[cfg(test)]
mod evening;
#[cfg(test)]
mod forged;
#[cfg(test)]
mod opening;
#[cfg(test)]
mod packets;
#[cfg(test)]
mod replicas;
#[cfg(test)]
mod resting;
#[cfg(test)]
mod said;
#[cfg(test)]
mod shares;
#[cfg(test)]
mod small_tables;
#[cfg(test)]
mod steps;
