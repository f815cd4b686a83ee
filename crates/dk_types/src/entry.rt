// Attempts at an evaluation, and what they gave.
use crate::Decs;
use dk_num::Dec;

/// What an attempt gave, lent: one value a response, or that it failed.
#[derive(Clone, Copy, Debug)]
pub enum Outcome<'a> {
    Values(&'a [Dec]),
    Failed,
}

/// What an attempt gave, kept: one value a response, or that it failed.
#[derive(Debug, Drop)]
pub enum Said {
    Values(Decs),
    Failed,
}

/// An attempt that was made: its point, one decimal a variable; its number among the attempts of this point, from 1;
/// and what it gave.
#[derive(Debug, Drop)]
pub struct Entry {
    pub point: Decs,
    pub attempt: u32,
    pub said: Said,
}
