//! The fault of a source, and the line that tells of it.
ghost use Rattle.std.specs.Prelude.{◌≡◌, ◌++◌, ◌≤◌, codes, length, IfOk};
ghost use Rattle.px_base.specs.Place.{place_at};
ghost use Rattle.report.specs.Wording as spec;

use crate::wording::{check_message, lexical_message, syntax_message};
use itoa::Buffer;
use pas_check::CheckFault;
use pas_lexer::LexFault;
use pas_parser::ParseFault;
use px_base::pos_of;
use std::alloc::{AllocError, Global};

/// Why a source is refused.
#[derive(Debug, Drop)]
pub enum SourceFault {
    /// It has too many bytes.
    TooLarge,
    /// It has no tokens.
    Lex(LexFault),
    /// Its tokens have no tree. The number is the place of the token in bytes from 0; at the end, that of the text's end.
    Parse(ParseFault, u32),
    /// Its tree is no checked program.
    Check(CheckFault),
    /// It would be analysed over this many cells, which are too many.
    Cells(u64),
}

/// `NAME:line:col: message`
fn placed_line(
    alloc: Global,
    name: &str,
    text: &[u8],
    at: u32,
    message: &str,
) -> Result<Vec<u8>, AllocError>
    requires within { at ≤ length text.now }
    requires small { length text.now ≤ 1048576 }
    ensures { IfOk result (λ line. line.items ≡ spec.placed_line name.now (place_at text.now at) message.now) }
{
    let pos = pos_of(text, at);
    let mut buffer = Buffer::new();
    let mut line = Vec::from_slice(alloc, name.as_bytes())?;
    line.extend_from_slice(b":")?;
    line.extend_from_slice(buffer.format(pos.line).as_bytes())?;
    line.extend_from_slice(b":")?;
    line.extend_from_slice(buffer.format(pos.col).as_bytes())?;
    line.extend_from_slice(b": ")?;
    line.extend_from_slice(message.as_bytes())?;
    line.extend_from_slice(b"\n")?;
    Ok(line)
}

/// `NAME: too large`
fn too_large_line(alloc: Global, name: &str) -> Result<Vec<u8>, AllocError>
    ensures { IfOk result (λ line. line.items ≡ name.now ++ codes ": too large\n") }
{
    let mut line = Vec::from_slice(alloc, name.as_bytes())?;
    line.extend_from_slice(b": too large\n")?;
    Ok(line)
}

/// `NAME: too many cells: N`
fn cells_line(alloc: Global, name: &str, cells: u64) -> Result<Vec<u8>, AllocError>
    ensures { IfOk result (λ line. line.items ≡ spec.cells_line name.now cells) }
{
    let mut buffer = Buffer::new();
    let mut line = Vec::from_slice(alloc, name.as_bytes())?;
    line.extend_from_slice(b": too many cells: ")?;
    line.extend_from_slice(buffer.format(cells).as_bytes())?;
    line.extend_from_slice(b"\n")?;
    Ok(line)
}

/// The line of a lexical fault.
fn lexical_line(
    alloc: Global,
    name: &str,
    text: &[u8],
    fault: LexFault,
) -> Result<Vec<u8>, AllocError>
    requires small { length text.now ≤ 1048576 }
    requires told { spec.CanTellLexical (length text.now) fault }
    ensures { IfOk result (λ line. line.items ≡ spec.lexical_line name.now text.now fault) }
{
    let at = match fault {
        LexFault::BadByte { at }
        | LexFault::Unclosed { at, .. }
        | LexFault::TooBig { at }
        | LexFault::OpenAssertion { at } => at,
        LexFault::Memory(_) => unreachable!(),
    };
    placed_line(alloc, name, text, at, lexical_message(fault))
}

/// The line that tells of a fault of the text, under the name of its file: `NAME:line:col: message`, `NAME: too large` or
/// `NAME: too many cells: N`, with a line feed. Lines are counted by line feeds and columns by bytes, both from 1.
///
/// # Errors
///
/// Want of memory.
pub fn fault_text(
    alloc: Global,
    name: &str,
    text: &[u8],
    fault: &SourceFault,
) -> Result<Vec<u8>, AllocError>
    requires small { length text.now ≤ 1048576 }
    requires told { spec.CanTell (length text.now) fault.now }
    ensures { IfOk result (λ line. line.items ≡ spec.fault_line name.now text.now fault.now) }
{
    match fault {
        SourceFault::TooLarge => too_large_line(alloc, name),
        SourceFault::Lex(fault) => lexical_line(alloc, name, text, *fault),
        SourceFault::Parse(fault, at) => {
            let message = syntax_message(*fault, *at as usize == text.len());
            placed_line(alloc, name, text, *at, message)
        }
        SourceFault::Check(CheckFault::Wrong { code, at }) => {
            placed_line(alloc, name, text, *at, check_message(*code))
        }
        SourceFault::Check(CheckFault::Memory(_)) => unreachable!(),
        SourceFault::Cells(cells) => cells_line(alloc, name, *cells),
    }
}
