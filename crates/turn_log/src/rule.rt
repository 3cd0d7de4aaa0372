//! What holds of a log between any two steps of its threads, and what each kind of step tells the thread that takes it.
//!
//! The table has one word and one slot. The word is twice the number of entries, and one more while a turn is out. The slot has the value,
//! and is held by the turn while one is out.
ghost use Rattle.std.specs.Prelude.{false, [], Some};
ghost use Rattle.turn_log.specs.Rules.{Logged, Claims, Settles, Looks, view, joint_view, spent_view};

use crate::grows::Grows;
use atomic_table::{Join, Play, Split, TableRule};
use std::collections::LinkedList;
use std::marker::PhantomData;
use std::snapshot::Snapshot;

// What a pass knows: whether a turn of it is out, the entries that it has seen, those that a pass joined to it had seen, and the value
// with which its log was opened. No value of it is made.
pub struct View<E, O> {
    pub is_out: bool,
    pub seen: LinkedList<E>,
    pub other: LinkedList<E>,
    pub opening: Option<O>,
}

// The rule of a log. Its key is the value with which it was opened, which gives the log's home.
pub struct Ruled<T> {
    of: PhantomData<T>,
}

impl<T: Grows> TableRule<Option<T>, View<T::Entry, Snapshot<T>>, Snapshot<T>> for Ruled<T> {
    ghost holds = { λ key. Logged T.entries T.home (λ o. T.home o.value) (T.home key.value) };

    ghost first = { λ key. view false (T.entries key.value) [] (Some key) };
}

// The turn is asked for. It is had where no other was out.
pub struct Claim<T> {
    of: PhantomData<T>,
}

impl<T: Grows> Play<Option<T>, View<T::Entry, Snapshot<T>>> for Claim<T> {
    ghost then = { Claims T.entries T.home (λ o. T.home o.value) };
}

// The turn ends, with the number of entries that there are then.
pub struct Settle<T> {
    of: PhantomData<T>,
}

impl<T: Grows> Play<Option<T>, View<T::Entry, Snapshot<T>>> for Settle<T> {
    ghost then = { Settles T.entries };
}

// The lists that a pass knows are compared.
pub struct Look<T> {
    of: PhantomData<T>,
}

impl<T: Grows> Play<Option<T>, View<T::Entry, Snapshot<T>>> for Look<T> {
    ghost then = { Looks };
}

// Both passes know what the one knew.
pub struct Same;

impl<E, O> Split<View<E, O>> for Same {
    ghost left = { λ v. v };

    ghost right = { λ v. v };
}

// One pass knows what both knew.
pub struct Both;

impl<E, O> Join<View<E, O>> for Both {
    ghost both = { joint_view };

    ghost spent = { spent_view };
}
