//! The lexemes of the Pascal profile: a source becomes a list of tokens, each with its exact place.
#![tactic(auto)]

mod fault;
mod piece;
mod scan;
mod token;
mod uniqueness;
mod word;

pub use fault::LexFault;
pub use scan::lex;
pub use token::{Symbol, Token, TokenKind};
pub use uniqueness::a_text_has_one_covering;
pub use word::Word;

#[cfg(test)]
mod tests;
