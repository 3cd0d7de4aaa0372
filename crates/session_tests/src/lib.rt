//! Tests of the server in whole sessions. Without them the crate is empty.
#![tactic(auto)]

#[cfg(test)]
mod bundles;
#[cfg(test)]
mod desks;
#[cfg(test)]
mod ends;
#[cfg(test)]
mod generated;
#[cfg(test)]
mod lines;
#[cfg(test)]
mod parts;
#[cfg(test)]
mod pieces;
#[cfg(test)]
mod running;
#[cfg(test)]
mod windows;
#[cfg(test)]
mod words;
