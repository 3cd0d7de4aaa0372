//! Tests of lines, sets, substitutions, definitions, texts that are written, ground clauses and command lines, against answers that were
//! worked out by hand. What a session can show of texts is in the files of jobs in `examples/`.
#![tactic(auto)]

#[cfg(test)]
mod commands;
#[cfg(test)]
mod definitions;
#[cfg(test)]
mod ground;
#[cfg(test)]
mod lines;
#[cfg(test)]
mod printing;
#[cfg(test)]
mod samples;
#[cfg(test)]
mod sets;
#[cfg(test)]
mod substitutions;
