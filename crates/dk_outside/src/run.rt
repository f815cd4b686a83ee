// A child that ran.
ghost use Rattle.std.specs.Prelude.{◌≡◌, IfOk};

use crate::{Text, Words};
use std::alloc::{AllocError, Global};
use std::marker::Model;

/// Bytes, which contracts see as their list.
#[derive(Debug, Drop)]
pub struct Bytes {
    items: Vec<u8>,
}

impl Model for Bytes {
    ghost use Rattle.std.specs.Prelude.{List, ℕ};

    ghost Value = { List ℕ };

    ghost view = { λ b. b.items.items };
}

impl Bytes {
    /// The same bytes, owned.
    pub fn of(alloc: Global, items: &[u8]) -> Result<Bytes, AllocError>
        ensures { IfOk result (λ b. b ≡ items.now) }
    {
        Ok(Bytes {
            items: Vec::from_slice(alloc, items)?,
        })
    }

    pub fn items(&self) -> &[u8]
        ensures { result.now ≡ self.now }
    {
        &self.items
    }

    /// Equal bytes.
    pub fn copy(&self, alloc: Global) -> Result<Bytes, AllocError>
        ensures { IfOk result (λ b. b ≡ self.now) }
    {
        Bytes::of(alloc, self.items())
    }
}

/// A child that was started: its driver's words, the names of its two files, the bytes that its parameters file had,
/// and the number of the attempt, from 1.
#[derive(Debug, Drop)]
pub struct Run {
    pub driver: Words,
    pub parameters: Text,
    pub results: Text,
    pub bytes: Bytes,
    pub attempt: u32,
}
