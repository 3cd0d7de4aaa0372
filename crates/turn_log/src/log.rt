//! A log and its passes.
ghost use Rattle.std.specs.Prelude.{◌≡◌, true, false, IfOk, IfSome, IfNone};
ghost use mathlib.Core.List.{IsPrefix};
ghost use Rattle.turn_log.specs.Rules.{longer, Holds};

use crate::grows::Grows;
use crate::rule::{Both, Claim, Look, Ruled, Same, Settle, View};
use crate::turn::Turn;
use atomic_table::{Refused, Seat, Table};
use std::alloc::{AllocError, Global};
use std::hint::spin_loop;
use std::snapshot::Snapshot;
use std::sync::Wait;
use std::thread::yield_now;

// How often a pass that waits for its turn looks again before it lets another thread run. Most turns take less time than that.
const MOST_LOOKS: u64 = 20;

/// A value that threads change in turns. It can't be dropped: it is ended by `close`.
pub struct TurnLog<T: Grows> {
    table: Table<Option<T>, View<T::Entry, Snapshot<T>>, Snapshot<T>, Ruled<T>, Global>,
    ghost sized: { (table.shared.table_id.words ≡ 1) × (table.shared.table_id.slots ≡ 1) },
}

// Waits for that many moments.
fn pause(moments: u64) {
    for _ in 0..moments {
        spin_loop();
    }
}

/// The right of one thread to take turns, with the entries that it has seen. It has no bytes. Where it is dropped with no turn out, the
/// log goes on without it. `E` is the type of the entries: a bound on `T` would keep types that hold a pass from crossing threads.
#[derive(Drop)]
pub struct PassOf<T, E> {
    seat: Seat<Option<T>, View<E, Snapshot<T>>>,
    ghost holds: { Holds seat.me },
}

/// A pass of a log over values of `T`.
pub type Pass<T> = PassOf<T, <T as Grows>::Entry>;

impl<T: Grows> TurnLog<T> {
    ghost use Rattle.turn_log.specs.Logs.{opening};
    ghost use Rattle.turn_log.specs.Passes.{IsOf, seen, is_out};
    ghost use Rattle.turn_log.specs.Turns.{value_in};

    /// A log over a value, and its first pass. Without memory the value is dropped.
    pub fn new(alloc: Global, value: T) -> Result<(TurnLog<T>, Pass<T>), AllocError>
        ensures home { IfOk result (λ made. T.home (opening made.0) ≡ T.home value) }
        ensures of { IfOk result (λ made. IsOf made.0 made.1) }
        ensures rest { IfOk result (λ made. is_out made.1 ≡ false) }
        ensures seen { IfOk result (λ made. seen made.1 ≡ T.entries value) }
    {
        let key = Snapshot::of(&value);
        let word = 2 * value.count();
        let mut slots = Vec::with_capacity(alloc, 1)?;
        slots.push_reserved(Some(value));
        match Table::new(alloc, &[word], slots, &key) {
            Ok((table, seat)) => Ok((TurnLog { table }, PassOf { seat })),
            Err(Refused { slots: _ }) => Err(AllocError),
        }
    }

    // A turn, where no other is out.
    fn try_take(&self, pass: &mut Pass<T>) -> Option<Turn<T>>
        requires of { IsOf self.now pass.old }
        requires rest { is_out pass.old ≡ false }
        ensures of { IsOf self.now pass.new }
        ensures home { IfSome result (λ turn. T.home (value_in turn) ≡ T.home (opening self.now)) }
        ensures out { IfSome result (λ _. is_out pass.new ≡ true) }
        ensures seen { IfSome result (λ turn. seen pass.new ≡ T.entries (value_in turn)) }
        ensures grown { IfSome result (λ _. IsPrefix (seen pass.old) (seen pass.new)) }
        ensures none { IfNone result ((is_out pass.new ≡ false) × (seen pass.new ≡ seen pass.old)) }
    {
        let shared = &self.table.shared;
        let found = shared.fetch_or::<Claim<T>>(&mut pass.seat, 0, 1);
        if found % 2 == 0 {
            let value = shared.exchange(&mut pass.seat, 0, None).unwrap();
            Some(Turn { value })
        } else {
            None
        }
    }

    // Whether no turn seems to be out. A look writes nothing, so that it holds up the thread that has the turn less than an attempt to take it.
    fn seems_free(&self) -> bool {
        self.table.shared.peek(0) % 2 == 0
    }

    /// A turn: the value, with all entries that there are. Waits for as long as another turn is out, after each look a little longer.
    pub fn take<R: Wait>(&self, rt: &R, pass: &mut Pass<T>) -> Turn<T>
        requires of { IsOf self.now pass.old }
        requires rest { is_out pass.old ≡ false }
        ensures of { IsOf self.now pass.new }
        ensures out { is_out pass.new ≡ true }
        ensures home { T.home (value_in result) ≡ T.home (opening self.now) }
        ensures seen { seen pass.new ≡ T.entries (value_in result) }
        ensures grown { IsPrefix (seen pass.old) (seen pass.new) }
    {
        let mut looks = 0u64;
        for _ in rt.forever() {
            if self.seems_free()
                && let Some(turn) = self.try_take(pass)
            {
                return turn;
            }
            if looks < MOST_LOOKS {
                looks += 1;
                pause(looks);
            } else {
                looks = 0;
                yield_now();
            }
        }
        unreachable!()
    }

    /// Ends the turn of this pass, with the value that the other threads then find.
    pub fn give(&self, pass: &mut Pass<T>, turn: Turn<T>)
        requires of { IsOf self.now pass.old }
        requires out { is_out pass.old ≡ true }
        requires home { T.home (value_in turn) ≡ T.home (opening self.now) }
        requires grown { IsPrefix (seen pass.old) (T.entries (value_in turn)) }
        ensures of { IsOf self.now pass.new }
        ensures rest { is_out pass.new ≡ false }
        ensures seen { seen pass.new ≡ T.entries (value_in turn) }
    {
        let Turn { value } = turn;
        let settled = 2 * value.count();
        let shared = &self.table.shared;
        drop(shared.exchange(&mut pass.seat, 0, Some(value)));
        shared.store::<Settle<T>>(&mut pass.seat, 0, settled);
    }

    /// A pass that has seen the same, as for another thread.
    pub fn split(&self, pass: &mut Pass<T>) -> Pass<T>
        requires of { IsOf self.now pass.old }
        requires rest { is_out pass.old ≡ false }
        ensures of { IsOf self.now pass.new × IsOf self.now result }
        ensures rest { (is_out pass.new ≡ false) × (is_out result ≡ false) }
        ensures seen { (seen pass.new ≡ seen pass.old) × (seen result ≡ seen pass.old) }
    {
        PassOf {
            seat: self.table.shared.split_seat::<Same>(&mut pass.seat),
        }
    }

    /// Takes another pass in. Of what the two had seen the one begins the other, and the pass has then seen the longer.
    pub fn join(&self, pass: &mut Pass<T>, other: Pass<T>)
        requires of { IsOf self.now pass.old × IsOf self.now other }
        requires rest { (is_out pass.old ≡ false) × (is_out other ≡ false) }
        ensures of { IsOf self.now pass.new }
        ensures rest { is_out pass.new ≡ false }
        ensures seen { seen pass.new ≡ longer (seen pass.old) (seen other) }
        ensures first { IsPrefix (seen pass.old) (seen pass.new) }
        ensures second { IsPrefix (seen other) (seen pass.new) }
    {
        let PassOf { seat } = other;
        let shared = &self.table.shared;
        shared.join_seat::<Both>(&mut pass.seat, seat);
        shared.load::<Look<T>>(&mut pass.seat, 0);
    }

    /// Ends the log with a last turn, and hands out its value. Waits for as long as another turn is out.
    pub fn close<R: Wait>(self, rt: &R, mut pass: Pass<T>) -> T
        requires of { IsOf self pass }
        requires rest { is_out pass ≡ false }
        ensures home { T.home result ≡ T.home (opening self) }
        ensures grown { IsPrefix (seen pass) (T.entries result) }
    {
        let Turn { value } = self.take(rt, &mut pass);
        let TurnLog { table } = self;
        drop(table);
        value
    }
}
