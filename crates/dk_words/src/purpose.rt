// What a study is read for.

/// What a study is read for.
#[derive(Clone, Copy, Debug, PartialEq, Eq)]
pub enum Purpose {
    /// To be evaluated.
    Run,
    /// To be told of, and not evaluated.
    Check,
}
