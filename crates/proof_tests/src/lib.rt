//! Tests of the crates of proofs: what their public calls answer to small inferences, cuts and sequents. What a session can show of them is
//! in the files of jobs in `examples/`.
#![tactic(auto)]

#[cfg(test)]
mod contractions;
#[cfg(test)]
mod definitions;
#[cfg(test)]
mod eliminations;
#[cfg(test)]
mod inferences;
#[cfg(test)]
mod meetings;
#[cfg(test)]
mod merges;
#[cfg(test)]
mod messages;
#[cfg(test)]
mod samples;
#[cfg(test)]
mod searches;
#[cfg(test)]
mod sharing;
#[cfg(test)]
mod tables;
#[cfg(test)]
mod threads;
#[cfg(test)]
mod turns;
