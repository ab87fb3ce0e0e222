use std::alloc::AllocError;
use thiserror::Error;

/// Why a text has no token list. Each place is counted in bytes from 0.
#[derive(Clone, Copy, Debug, PartialEq, Eq, Error)]
pub enum LexFault {
    /// No lexeme begins with the byte at `at`.
    #[error("no lexeme begins with the byte at {at}")]
    BadByte { at: u32 },
    /// The comment that opens at `at` has no end, or the string that opens there meets the end of its line.
    #[error("the comment or string at {at} is not closed")]
    Unclosed { at: u32, comment: bool },
    /// The number whose first digit stands at `at` is above 2147483647.
    #[error("the number at {at} is too large")]
    TooBig { at: u32 },
    /// The text ends inside the assertion that opens at `at`.
    #[error("the assertion at {at} is not closed")]
    OpenAssertion { at: u32 },
    #[error("out of memory")]
    Memory(AllocError),
}
