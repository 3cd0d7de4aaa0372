//! The order in which atoms are chosen.

use crate::tables::{at, narrow, put};
use std::alloc::{AllocError, Global};

/// Above this, all scores are made smaller.
const LARGE: u64 = 1 << 60;

/// By so many bits.
const SHIFT: u32 = 40;

/// A heap of atoms with the highest score on top. Atoms that stand in recent conflicts have high scores: what each conflict adds is a
/// fiftieth more than what the one before added.
#[derive(Drop)]
pub(crate) struct Order {
    scores: Vec<u64>,
    gain: u64,
    heap: Vec<u32>,
    places: Vec<Option<u32>>,
}

impl Order {
    /// All atoms, with equal scores.
    pub fn new(alloc: Global, atoms: usize) -> Result<Order, AllocError> {
        let mut heap = Vec::with_capacity(alloc, atoms)?;
        let mut places = Vec::with_capacity(alloc, atoms)?;
        for atom in 0..atoms {
            let atom = narrow(atom)?;
            heap.push(atom)?;
            places.push(Some(atom))?;
        }
        Ok(Order {
            scores: vec![in alloc; 0u64; atoms]?,
            gain: 1 << (60 - SHIFT),
            heap,
            places,
        })
    }

    fn score_at(&self, place: u32) -> u64 {
        let atom = at(&self.heap, place as usize, u32::MAX);
        at(&self.scores, atom as usize, 0)
    }

    // Puts an atom at a place of the heap.
    fn set(&mut self, place: u32, atom: u32) {
        put(&mut self.heap, place as usize, atom);
        put(&mut self.places, atom as usize, Some(place));
    }

    fn swap(&mut self, place: u32, other: u32) {
        let atom = at(&self.heap, place as usize, 0);
        let moved = at(&self.heap, other as usize, 0);
        self.set(place, moved);
        self.set(other, atom);
    }

    // Moves the atom at a place up to where none below it has a higher score.
    fn raise(&mut self, place: u32) {
        let mut place = place;
        for _turn in 0..usize::BITS {
            if place == 0 {
                return;
            }
            let above = (place - 1) / 2;
            if self.score_at(place) <= self.score_at(above) {
                return;
            }
            self.swap(place, above);
            place = above;
        }
    }

    // Of the two places below a place the one with the higher score.
    fn below(&self, place: u32) -> u32 {
        let first = place.saturating_mul(2).saturating_add(1);
        let second = first.saturating_add(1);
        if (second as usize) < self.heap.len() && self.score_at(first) < self.score_at(second) {
            second
        } else {
            first
        }
    }

    // Moves the atom at a place down to where none below it has a higher score.
    fn lower(&mut self, place: u32) {
        let mut place = place;
        for _turn in 0..usize::BITS {
            let below = self.below(place);
            if below as usize >= self.heap.len() || self.score_at(below) <= self.score_at(place) {
                return;
            }
            self.swap(place, below);
            place = below;
        }
    }

    /// Adds an atom, unless it is there.
    pub fn add(&mut self, atom: u32) -> Result<(), AllocError> {
        if at(&self.places, atom as usize, None).is_none() {
            let place = narrow(self.heap.len())?;
            self.heap.push(atom)?;
            put(&mut self.places, atom as usize, Some(place));
            self.raise(place);
        }
        Ok(())
    }

    /// Takes the atom with the highest score.
    pub fn pop(&mut self) -> Option<u32> {
        let last = self.heap.pop()?;
        let top = at(&self.heap, 0, last);
        if !self.heap.is_empty() {
            self.set(0, last);
            self.lower(0);
        }
        put(&mut self.places, top as usize, None);
        Some(top)
    }

    /// Makes an atom's score higher.
    pub fn bump(&mut self, atom: usize) {
        let score = at(&self.scores, atom, 0).saturating_add(self.gain);
        put(&mut self.scores, atom, score);
        if score > LARGE {
            self.shrink();
        }
        if let Some(place) = at(&self.places, atom, None) {
            self.raise(place);
        }
    }

    // Makes all scores smaller.
    fn shrink(&mut self) {
        for score in &mut self.scores {
            *score >>= SHIFT;
        }
        self.gain = (self.gain >> SHIFT).max(1);
    }

    /// Later conflicts add more.
    pub fn age(&mut self) {
        self.gain = self.gain.saturating_add(self.gain / 50);
    }
}
