// A child program in memory.
ghost use Rattle.std.specs.Prelude.{ℕ, ◌≤◌, List, Option, length};
ghost use Rattle.dk_memory.specs.Files.{left_of, IsWithin};

/// What a child leaves in its results file.
#[derive(Clone, Copy, Debug, PartialEq, Eq)]
pub enum Left {
    /// Nothing.
    Nothing,
    /// The first bytes of a buffer, so many.
    Bytes(usize),
}

/// What a child does with a parameters file.
pub trait Child: Drop {
    /// What it may leave, by the bytes of its parameters file and the attempt's number: bytes, or no file.
    ghost leaves: { List ℕ → ℕ → Option (List ℕ) → Type 0 };

    /// Leaves bytes in front of the buffer, or nothing.
    fn leave(&self, parameters: &[u8], attempt: u32, buf: &mut [u8]) -> Left
        requires { 65537 ≤ length buf.old }
        ensures within { IsWithin result (length buf.new) }
        ensures left { leaves parameters.now attempt (left_of result buf.new) };
}
