//! Reading whole files and all that a source gives.
ghost use Rattle.std.specs.Prelude.{◌≡◌, ◌↔◌, ◌+◌, ◌<◌, ◌≤◌, ◌++◌, ℕ, List, [], false, Some, length, IsErrOf, IfOk, OnOk};
ghost use Rattle.std.specs.Option.{ForSome};
ghost use Rattle.px_base.specs.Bytes.{ForFile};
ghost use Rattle.px_base.specs.Faults.{HasCause};
ghost use Rattle.px_base.specs.Reading.{is_fault};

use crate::{Shelf, Source};
use std::alloc::{AllocError, Global};

/// Why bytes weren't read whole.
#[derive(Clone, Copy, Debug, PartialEq, Eq)]
pub enum ReadEnd {
    /// The outside failed.
    Failed,
    /// There are more bytes than the limit allows.
    TooLarge,
    /// There was no memory for the bytes.
    Memory(AllocError),
}

/// Reads the whole file under a name, at most `limit` bytes. After an error the shelf stands as its last call left it.
pub fn read_file<P: Shelf>(
    alloc: Global,
    shelf: &mut P,
    name: &str,
    limit: u32,
) -> Result<Vec<u8>, ReadEnd>
    requires { P.may_ask shelf.old name.now }
    ensures bytes { IfOk result (λ v. ForFile (P.file shelf.old name.now) (λ bytes. v.items ≡ bytes)) }
    ensures at_end { OnOk result (ForFile (P.file shelf.old name.now) (λ _. P.left shelf.new ≡ Some [])) }
    ensures within { IfOk result (λ v. length v.items ≤ limit) }
    ensures too_large { IsErrOf result ReadEnd.TooLarge
        → ForFile (P.file shelf.old name.now) (λ bytes. limit < length bytes) }
    ensures names { (n : List ℕ) → P.may_ask shelf.new n ↔ P.may_ask shelf.old n }
    ensures files { (n : List ℕ) → P.file shelf.new n ≡ P.file shelf.old n }
    ensures cause { HasCause (P.faults shelf.old) (P.faults shelf.new) (is_fault result) }
{
    let Ok(()) = shelf.pick(name) else {
        return Err(ReadEnd::Failed);
    };
    read_rest(alloc, shelf, limit)
}

/// Reads what is left of the picked file, at most `limit` bytes.
fn read_rest<P: Shelf>(alloc: Global, shelf: &mut P, limit: u32) -> Result<Vec<u8>, ReadEnd>
    ensures bytes { IfOk result (λ v. ForSome (P.left shelf.old) (λ bytes. v.items ≡ bytes)) }
    ensures at_end { OnOk result (ForSome (P.left shelf.old) (λ _. P.left shelf.new ≡ Some [])) }
    ensures within { IfOk result (λ v. length v.items ≤ limit) }
    ensures too_large { IsErrOf result ReadEnd.TooLarge → ForSome (P.left shelf.old) (λ bytes. limit < length bytes) }
    ensures names { (n : List ℕ) → P.may_ask shelf.new n ↔ P.may_ask shelf.old n }
    ensures files { (n : List ℕ) → P.file shelf.new n ≡ P.file shelf.old n }
    ensures cause { HasCause (P.faults shelf.old) (P.faults shelf.new) (is_fault result) }
{
    let mut bytes = Vec::new(alloc);
    let mut piece = [0; PIECE];
    loop {
        let Ok(count) = shelf.read(&mut piece) else {
            return Err(ReadEnd::Failed);
        };
        if count == 0 {
            return Ok(bytes);
        }
        append_within(&mut bytes, &piece[..count], limit)?;
    }
}

/// Reads all that a source gives, at most `limit` bytes. After an error the source stands as its last call left it.
pub fn read_all<S: Source>(alloc: Global, source: &mut S, limit: u32) -> Result<Vec<u8>, ReadEnd>
    ensures bytes { IfOk result (λ v. ForSome (S.left source.old) (λ bytes. v.items ≡ bytes)) }
    ensures at_end { OnOk result (ForSome (S.left source.old) (λ _. S.left source.new ≡ Some [])) }
    ensures within { IfOk result (λ v. length v.items ≤ limit) }
    ensures too_large { IsErrOf result ReadEnd.TooLarge → ForSome (S.left source.old) (λ bytes. limit < length bytes) }
    ensures cause { HasCause (S.faults source.old) (S.faults source.new) (is_fault result) }
{
    let mut bytes = Vec::new(alloc);
    let mut piece = [0; PIECE];
    loop {
        let Ok(count) = source.read(&mut piece) else {
            return Err(ReadEnd::Failed);
        };
        if count == 0 {
            return Ok(bytes);
        }
        append_within(&mut bytes, &piece[..count], limit)?;
    }
}

/// How many bytes a read asks for.
const PIECE: usize = 8192;

/// Adds a piece that was read to the bytes before it, unless they become more than the limit.
fn append_within(bytes: &mut Vec<u8>, piece: &[u8], limit: u32) -> Result<(), ReadEnd>
    requires { length bytes.old.items ≤ limit }
    ensures appended { OnOk result (bytes.new.items ≡ bytes.old.items ++ piece.now) }
    ensures within { OnOk result (length bytes.new.items ≤ limit) }
    ensures too_large { IsErrOf result ReadEnd.TooLarge → limit < length bytes.old.items + length piece.now }
    ensures not_failed { is_fault result ≡ false }
{
    if piece.len() > limit as usize - bytes.len() {
        return Err(ReadEnd::TooLarge);
    }
    bytes.extend_from_slice(piece).map_err(ReadEnd::Memory)
}
