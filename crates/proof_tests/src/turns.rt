//! Two threads that meet at a turn of a table.
ghost use Rattle.std.specs.Prelude.{◌≡◌, IfOk, IfSome};
ghost use Rattle.memo_table.specs.Memos.{home_of, IsPassOf};
ghost use Rattle.proof_tests.specs.Sums.{key_respects};

use crate::meetings::is_reached;
use memo_table::{Law, Memo, MemoPass};
use std::alloc::{AllocError, Global};
use std::sync::Wait;
use std::sync::atomic::{AtomicU64, Ordering};
use std::test::Fail;
use std::thread::{Threads, join, yield_now};

// How often the thread that has the turn lets others run before it gives the turn back, so that the other one asks for it in the meantime.
const MOMENTS: u64 = 10_000;

// What two threads tell each other: that the first has the turn, that the second asks for it next, and that the first gives it back next.
#[derive(Drop)]
struct Meeting {
    held: AtomicU64,
    comes: AtomicU64,
    gone: AtomicU64,
}

// The value of a key is the key. Its copy is made within the turn in which it is found, which lasts until another thread comes.
struct Held;

impl Law for Held {
    type Key = u64;

    type Val = u64;

    type Home = Meeting;

    ghost Truth = { λ _ key val. val ≡ key };

    fn copy(_alloc: Global, home: &Meeting, val: &u64) -> Result<u64, AllocError> {
        home.held.store(1, Ordering::SeqCst);
        if !is_reached(&home.comes, 1) {
            return Err(AllocError);
        }
        for _ in 0..MOMENTS {
            yield_now();
        }
        home.gone.store(1, Ordering::SeqCst);
        Ok(*val)
    }

    ghost respects_cmp = { key_respects };
}

// Looks up the first key, in a turn that lasts until the other thread comes.
fn find_held<R: Wait>(
    rt: &R,
    alloc: Global,
    memo: &Memo<Held>,
    mut pass: MemoPass<Held>,
    meeting: &Meeting,
) -> (MemoPass<Held>, Result<Option<u64>, AllocError>)
    requires { IsPassOf memo.now pass × (meeting.now ≡ home_of memo.now) }
    ensures { IsPassOf memo.now result.0 }
{
    let found = memo.find(rt, alloc, &mut pass, meeting, &1);
    (pass, found)
}

// Notes the second key while the turn is out, and says whether it was noted, but not before the turn was given back.
fn note_meanwhile<R: Wait>(
    rt: &R,
    memo: &Memo<Held>,
    mut pass: MemoPass<Held>,
    meeting: &Meeting,
) -> (MemoPass<Held>, bool)
    requires { IsPassOf memo.now pass }
    ensures { IsPassOf memo.now result.0 }
{
    let is_held = is_reached(&meeting.held, 1);
    meeting.comes.store(1, Ordering::SeqCst);
    let noted = memo.note(rt, &mut pass, 2, 2).is_ok();
    let is_gone = meeting.gone.load(Ordering::SeqCst) == 1;
    (pass, is_held && noted && is_gone)
}

// What the two threads have seen: what was found in the first one, whether the second one met the turn, and what is found there afterwards.
type Seen = (
    Result<Option<u64>, AllocError>,
    bool,
    Result<Option<u64>, AllocError>,
);

fn met_by_two<R: Threads + Wait + Sync>(
    rt: &R,
    alloc: Global,
    memo: &Memo<Held>,
    pass: &mut MemoPass<Held>,
    meeting: &Meeting,
) -> Seen
    requires pass_of { IsPassOf memo.now pass.old }
    requires home { meeting.now ≡ home_of memo.now }
    ensures { IsPassOf memo.now pass.new }
{
    let one = memo.split(pass);
    let two = memo.split(pass);
    let ((one, found), (two, met)) = join(
        rt,
        || -> (MemoPass<Held>, Result<Option<u64>, AllocError>)
            requires { IsPassOf memo.now one × (meeting.now ≡ home_of memo.now) }
            ensures { IsPassOf memo.entry.now result.0 }
        { find_held(rt, alloc, memo, one, meeting) },
        || -> (MemoPass<Held>, bool)
            requires { IsPassOf memo.now two }
            ensures { IsPassOf memo.entry.now result.0 }
        { note_meanwhile(rt, memo, two, meeting) },
    );
    memo.join(pass, one);
    memo.join(pass, two);
    let second = memo.find(rt, alloc, pass, meeting, &2);
    (found, met, second)
}

#[test]
fn turn_is_waited_for(rt: HostRuntime) -> Result<(), Fail> {
    let meeting = Meeting {
        held: AtomicU64::new(0),
        comes: AtomicU64::new(0),
        gone: AtomicU64::new(0),
    };
    let (memo, mut pass) = Memo::<Held>::new(rt.alloc(), &meeting)?;
    let noted = memo.note(&rt, &mut pass, 1, 1);
    let (first, met, second) = met_by_two(&rt, rt.alloc(), &memo, &mut pass, &meeting);
    memo.close(&rt, pass);
    noted?;
    assert!(rt; first? == Some(1));
    assert!(rt; met);
    assert!(rt; second? == Some(2));
    Ok(())
}
