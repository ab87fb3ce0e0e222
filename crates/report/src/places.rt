//! Line and column of each byte of a text, found in one pass.
ghost use Rattle.std.specs.Prelude.{◌≡◌, ◌≤◌, ◌++◌, ◌+◌, ◌<◌, ◌∷◌, [], List, ℕ, IfOk, length};
ghost use Rattle.px_base.specs.Place.{place_after};
ghost use Rattle.report.specs.Report.{byte_places};

use px_base::Pos;
use std::alloc::{AllocError, Global};

/// The places of the bytes of a text and of its end, at their offsets.
pub(crate) fn places_of(alloc: Global, text: &[u8]) -> Result<Vec<Pos>, AllocError>
    requires { length text.now ≤ 1048576 }
    ensures { IfOk result (λ found. found.items ≡ byte_places text.now) }
{
    let mut found = Vec::with_capacity(alloc, text.len() + 1)?;
    let mut place = Pos { line: 1, col: 1 };
    for byte in text {
        found.push(place)?;
        place = place_behind(place, *byte);
    }
    found.push(place)?;
    Ok(found)
}

/// The place behind a byte.
fn place_behind(place: Pos, byte: u8) -> Pos
    requires lines { place.line < 4294967295 }
    requires columns { place.col < 4294967295 }
    ensures value { (before : List ℕ) → place ≡ place_after before → result ≡ place_after (before ++ byte ∷ []) }
    ensures lines { result.line ≤ place.line + 1 }
    ensures columns { result.col ≤ place.col + 1 }
{
    if byte == b'\n' {
        Pos {
            line: place.line + 1,
            col: 1,
        }
    } else {
        Pos {
            line: place.line,
            col: place.col + 1,
        }
    }
}
