//! Whether a runtime check can fail.

/// Whether a check can fail where an environment covers the state at its point.
#[derive(Clone, Copy, Debug, PartialEq, Eq)]
pub enum Verdict {
    /// It can't.
    Holds,
    /// The environment doesn't rule it out.
    MayFail,
}
