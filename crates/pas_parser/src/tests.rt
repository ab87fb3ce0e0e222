//! What no contract says: that sources are read, with the trees and the faults that the grammar gives them.

mod faults;
mod nesting;
mod trees;

use crate::{ParseFault, parse};
use pas_lexer::{Token, lex};
use std::alloc::Global;
use std::process::Abort;
use std::test::Fail;

/// The tokens of a source, which is one that has them.
fn tokens_of(rt: &impl Abort, alloc: Global, source: &str) -> Result<Vec<Token>, Fail> {
    assert!(rt; source.len() <= 1048576);
    let tokens = lex(alloc, source.as_bytes())?;
    assert!(rt; tokens.len() <= 1048576);
    Ok(tokens)
}

/// The fault of the tokens, or nothing where they are a program.
fn fault_of(rt: &impl Abort, alloc: Global, tokens: &[Token]) -> Option<ParseFault> {
    assert!(rt; tokens.len() <= 1048576);
    parse(alloc, tokens).err()
}

/// A program whose statement part has this text.
fn program_with(alloc: Global, body: &str) -> Result<String, Fail> {
    Ok(format!(in alloc; "program p; begin {body} end.")?)
}
