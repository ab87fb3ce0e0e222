ghost use Rattle.std.specs.Prelude.{◌≡◌, ◌<◌, ◌≤◌, length};

/// A place as people read it.
#[derive(Clone, Copy, Debug, PartialEq, Eq)]
pub struct Pos {
    /// The line, counted by line feeds from 1.
    pub line: u32,
    /// The column, counted in bytes from 1.
    pub col: u32,
}

/// A piece of a source: the bytes from `start` up to but not including `end`, counted from 0.
#[derive(Clone, Copy, Debug, PartialEq, Eq)]
pub struct Span {
    pub start: u32,
    pub end: u32,
}

ghost use Rattle.px_base.specs.Place.{place_at};

/// The place of the byte at this offset of a text, or of the text's end.
pub fn pos_of(text: &[u8], at: u32) -> Pos
    requires within { at ≤ length text.now }
    requires countable { at < 4294967295 }
    ensures { result ≡ place_at text.now at }
{
    let mut pos = Pos { line: 1, col: 1 };
    for byte in &text[..at as usize] {
        if *byte == b'\n' {
            pos = Pos {
                line: pos.line + 1,
                col: 1,
            };
        } else {
            pos.col += 1;
        }
    }
    pos
}
