//! A table of pairs that two threads fill.
ghost use Rattle.std.specs.Prelude.{◌≡◌, ◌+◌, IfOk, OnOk, IfSome, IsSome};
ghost use Rattle.std.specs.Ordering.{nat_cmp};
ghost use Rattle.turn_log.specs.Passes.{seen};
ghost use Rattle.memo_table.specs.Pairs.{IsIn};
ghost use Rattle.memo_table.specs.Memos.{home_of, IsPassOf};
ghost use Rattle.proof_tests.specs.Sums.{sum_respects};

use crate::meetings::meets;
use memo_table::{Law, Memo, MemoPass};
use std::alloc::{AllocError, Global};
use std::process::Abort;
use std::sync::Wait;
use std::sync::atomic::AtomicU64;
use std::test::Fail;
use std::thread::{Threads, join};

// The value of a key is its sum with the home.
struct Sums;

impl Law for Sums {
    type Key = u32;

    type Val = u64;

    type Home = u32;

    ghost Truth = { λ home key val. val ≡ home + key };

    fn copy(_alloc: Global, _home: &u32, val: &u64) -> Result<u64, AllocError> {
        Ok(*val)
    }

    ghost respects_cmp = { sum_respects };
}

// Notes the sum of a key, once two threads have come.
fn note_as<R: Wait>(
    rt: &R,
    memo: &Memo<Sums>,
    mut pass: MemoPass<Sums>,
    home: u32,
    key: u32,
    came: &AtomicU64,
) -> (MemoPass<Sums>, Result<(), AllocError>)
    requires { IsPassOf memo.now pass × (home_of memo.now ≡ home) }
    ensures of { IsPassOf memo.now result.0 }
    ensures ok { OnOk result.1 (IsIn nat_cmp (seen result.0) key) }
{
    if !meets(came, 2) {
        return (pass, Err(AllocError));
    }
    let noted = memo.note(rt, &mut pass, key, u64::from(home) + u64::from(key));
    (pass, noted)
}

// Two threads note a key each, from the same moment on, and the sum of the first is found.
#[tactic(auto, using(memo_table::proofs::Listed::in_prefix))]
fn noted_by_two<R: Threads + Wait + Sync>(
    rt: &R,
    alloc: Global,
    home: u32,
    first: u32,
    second: u32,
) -> Result<Option<u64>, AllocError>
    ensures some { IfOk result IsSome }
    ensures value { IfOk result (λ o. IfSome o (λ sum. sum ≡ home + first)) }
{
    let (memo, mut one) = Memo::<Sums>::new(alloc, &home)?;
    let two = memo.split(&mut one);
    let came = AtomicU64::new(0);
    let ((mut one, a), (two, b)) = join(
        rt,
        || -> (MemoPass<Sums>, Result<(), AllocError>)
            requires { IsPassOf memo one × (home_of memo ≡ home) }
            ensures { IsPassOf memo result.0 × OnOk result.1 (IsIn nat_cmp (seen result.0) first) }
        { note_as(rt, &memo, one, home, first, &came) },
        || -> (MemoPass<Sums>, Result<(), AllocError>)
            requires { IsPassOf memo two × (home_of memo ≡ home) }
            ensures { IsPassOf memo result.0 }
        { note_as(rt, &memo, two, home, second, &came) },
    );
    memo.join(&mut one, two);
    let found = memo.find(rt, alloc, &mut one, &home, &first);
    memo.close(rt, one);
    a?;
    b?;
    found
}

#[test]
fn table_of_two_threads(rt: HostRuntime) -> Result<(), Fail> {
    let found = noted_by_two(&rt, rt.alloc(), 7, 1, 2)?;
    assert!(rt; found == Some(8));
    Ok(())
}

#[test]
fn what_was_not_noted_is_not_found(rt: HostRuntime) -> Result<(), Fail> {
    let (memo, mut pass) = Memo::<Sums>::new(rt.alloc(), &7)?;
    let noted = memo.note(&rt, &mut pass, 1, 8).is_ok();
    let again = memo.note(&rt, &mut pass, 1, 8).is_ok();
    let first = memo.find(&rt, rt.alloc(), &mut pass, &7, &1);
    let second = memo.find(&rt, rt.alloc(), &mut pass, &7, &2);
    memo.close(&rt, pass);
    assert!(rt; noted && again);
    assert!(rt; first? == Some(8));
    assert!(rt; second?.is_none());
    Ok(())
}
