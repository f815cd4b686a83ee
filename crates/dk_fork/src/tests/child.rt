// A simulation in memory.
use dk_memory::{Child, Left};

/// What the simulation leaves.
#[derive(Clone, Copy, Debug, PartialEq, Eq)]
pub enum Gives {
    /// The value 6.5.
    Value,
    /// The word that it failed.
    Failure,
    /// Nothing.
    Nothing,
    /// One byte more than a results file may have.
    TooMuch,
}

/// Leaves what it is told to, whatever its parameters and the attempt.
#[derive(Drop)]
pub struct Simulated {
    pub gives: Gives,
}

impl Child for Simulated {
    ghost leaves = { λ parameters attempt left. Unit {0} };

    fn leave(&self, _parameters: &[u8], _attempt: u32, buf: &mut [u8]) -> Left {
        let text: &[u8] = match self.gives {
            Gives::Value => b"6.5 obj_fn\n",
            Gives::Failure => b"Fail: no mesh\n",
            Gives::Nothing => return Left::Nothing,
            Gives::TooMuch => return Left::Bytes(65_537),
        };
        let count = text.len().min(buf.len());
        buf[..count].copy_from_slice(&text[..count]);
        Left::Bytes(count)
    }
}
