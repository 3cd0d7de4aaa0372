//! Whether two premises have so much work that they are worked on at once.

use number_hash::ByNumber;
use proof_graph::ProofRef;
use std::alloc::{AllocError, Global};
use std::collections::HashSet;

// The fewest subproofs with cuts that a premise which is worked on in a thread of its own has and the other one hasn't: the work on fewer is
// done in the time in which a thread starts and proofs are copied.
const LEAST_APART: u64 = 16;

// The most subproofs that are looked at in a premise, so that a look at a large proof costs little.
const MOST_LOOKED_AT: u64 = 65536;

// Enters the subproofs with cuts that weren't entered, by their numbers, and answers how many they are.
fn enter(
    alloc: Global,
    proof: &ProofRef,
    entered: &mut HashSet<u64, ByNumber>,
) -> Result<u64, AllocError> {
    let before = entered.len();
    let mut rest = Vec::new(alloc);
    rest.push(proof)?;
    for _ in 0..MOST_LOOKED_AT {
        let Some(next) = rest.pop() else {
            break;
        };
        if next.counts().cuts > 0 && entered.insert(next.number())? {
            for premise in next.premises() {
                rest.push(premise)?;
            }
        }
    }
    Ok(entered.len().saturating_sub(before) as u64)
}

// Whether each of two premises has enough subproofs with cuts that the other hasn't, and no fewer than both share: these are worked on twice.
fn are_apart(alloc: Global, left: &ProofRef, right: &ProofRef) -> Result<bool, AllocError> {
    let mut entered = HashSet::with_hasher(alloc, ByNumber);
    let in_left = enter(alloc, left, &mut entered)?;
    let only_right = enter(alloc, right, &mut entered)?;
    let mut of_right = HashSet::with_hasher(alloc, ByNumber);
    let shared = enter(alloc, right, &mut of_right)?.saturating_sub(only_right);
    let only_left = in_left.saturating_sub(shared);
    let fewer = only_left.min(only_right);
    Ok(fewer >= LEAST_APART && fewer >= shared)
}

// Whether a premise may have so many cuts apart, and as many eigenvariables and instances: most of the work is substitution.
fn has_work(proof: &ProofRef) -> bool {
    let counts = proof.counts();
    counts.cuts >= LEAST_APART && counts.quantifiers >= LEAST_APART
}

/// Whether two premises are worked on at once. Without memory for the test they aren't.
pub(crate) fn are_worth_a_fork(alloc: Global, left: &ProofRef, right: &ProofRef) -> bool {
    has_work(left) && has_work(right) && are_apart(alloc, left, right).unwrap_or(false)
}
