// What the pieces of a text are.

/// The forms of pieces.
#[derive(Clone, Copy, Debug, PartialEq, Eq)]
pub enum Form {
    /// White space.
    White,
    /// A comma or an equals sign.
    Separator,
    /// From a `#` to the line's end.
    Comment,
    /// A string, with its two quotes.
    Quoted,
    /// A word, which may be a number.
    Word,
}

/// Runs of bytes of one sort.
#[derive(Clone, Copy)]
pub enum Run {
    /// Bytes of a word.
    Word,
    /// Bytes up to the line's end.
    Line,
    /// White space and backslashes up to the line's end.
    Blank,
    /// What may stand in a string that this quote began.
    Inside(u8),
}

/// What stands at the front of a text.
#[derive(Clone, Copy)]
pub enum Front {
    /// A piece of this form and length.
    Piece(Form, usize),
    /// The front of a string, of this length, whose line or text ends before the string does.
    Unclosed(usize),
    /// A byte at this place that no piece may have.
    Stray(usize),
}
