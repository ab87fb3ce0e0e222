use std::alloc::AllocError;
use thiserror::Error;

/// Why a token list has no tree. Tokens are counted from 0, and the number of tokens stands for the end.
#[derive(Clone, Copy, Debug, PartialEq, Eq, Error)]
pub enum ParseFault {
    /// No program begins with the tokens up to and with this one.
    #[error("no rule goes on with the token {token}")]
    NoRule { token: u32 },
    /// A construct that begins at this token, or an operator that stands there, is nested too deep.
    #[error("the nesting at the token {token} is too deep")]
    TooDeep { token: u32 },
    #[error("out of memory")]
    Memory(AllocError),
}
