//! Where the cards of a hash stand.
ghost use Rattle.std.specs.Prelude.{◌≡◌, ℕ, ◌+◌, ◌<◌, ◌≤◌, ◌==◌, length, get_or, slice_set, nat_eq, None, Some, IfOk, if◌then◌else◌};
ghost use Rattle.indexmap.specs.IndexMap.{get, spare};

use indexmap::IndexMap;
use std::alloc::{AllocError, Global};

/// Finds the cards of a hash, from the last that was added to the first.
#[derive(Drop)]
pub(crate) struct Index {
    /// The last card with a hash.
    last: IndexMap<u64, u32>,
    /// For each card the last one before it with its hash.
    before: Vec<Option<u32>>,
}

impl Index {
    /// An index of no cards, with room for so many.
    pub(crate) fn reserve(alloc: Global, cards: usize) -> Result<Index, AllocError>
        ensures knows_none { IfOk result (λ index. (hash : ℕ) → get nat_eq index.last hash ≡ None) }
        ensures has_room { IfOk result (λ index. cards ≤ spare index.last) }
        ensures holds_cards { IfOk result (λ index. length index.before.items ≡ cards) }
    {
        Ok(Index {
            last: IndexMap::with_capacity(alloc, cards)?,
            before: vec![in alloc; None; cards]?,
        })
    }

    /// The last card with this hash.
    pub(crate) fn last_with(&self, hash: u64) -> Option<u32>
        ensures { result ≡ get nat_eq self.now.last hash }
    {
        self.last.get(&hash).copied()
    }

    /// The last card before this one with its hash.
    pub(crate) fn before(&self, card: u32) -> Option<u32>
        requires { card < length self.now.before.items }
        ensures { result ≡ get_or self.now.before.items card None }
    {
        self.before[card as usize]
    }

    /// Adds a card with its hash, which is behind all others.
    pub(crate) fn add(&mut self, card: u32, hash: u64)
        requires has_place { card < length self.old.before.items }
        requires has_room { 1 ≤ spare self.old.last }
        ensures is_last { (other : ℕ) → get nat_eq self.new.last other ≡ (if hash == other then Some card else get nat_eq self.old.last other) }
        ensures chains { self.new.before.items ≡ slice_set self.old.before.items card (get nat_eq self.old.last hash) }
        ensures takes_room { spare self.old.last ≤ spare self.new.last + 1 }
    {
        let before = self.last.insert(hash, card).unwrap();
        self.before[card as usize] = before;
    }
}
