//! The word symbols.

ghost use Rattle.std.specs.Prelude.{◌≡◌, ◌<◌, length, map};
ghost use Rattle.std.specs.Str.{bytes_eq, str_to_ascii_lowercase};
ghost use Rattle.pas_lexer.specs.Lexeme as lexeme;
ghost use Rattle.pas_lexer.specs.Scan as scan;

/// A word symbol (ISO 7185, 6.1.2). Each is spelt in letters of either case.
#[derive(Clone, Copy, Debug, PartialEq, Eq)]
pub enum Word {
    WAnd,
    WArray,
    WBegin,
    WCase,
    WConst,
    WDiv,
    WDo,
    WDownto,
    WElse,
    WEnd,
    WFile,
    WFor,
    WFunction,
    WGoto,
    WIf,
    WIn,
    WLabel,
    WMod,
    WNil,
    WNot,
    WOf,
    WOr,
    WPacked,
    WProcedure,
    WProgram,
    WRecord,
    WRepeat,
    WSet,
    WThen,
    WTo,
    WType,
    WUntil,
    WVar,
    WWhile,
    WWith,
}

/// Word symbols with their spellings in small letters.
type Rows = &'static [(&'static [u8], Word)];

const A: Rows = &[(b"and", Word::WAnd), (b"array", Word::WArray)];

const B: Rows = &[(b"begin", Word::WBegin)];

const C: Rows = &[(b"case", Word::WCase), (b"const", Word::WConst)];

const D: Rows = &[
    (b"div", Word::WDiv),
    (b"do", Word::WDo),
    (b"downto", Word::WDownto),
];

const E: Rows = &[(b"else", Word::WElse), (b"end", Word::WEnd)];

const F: Rows = &[
    (b"file", Word::WFile),
    (b"for", Word::WFor),
    (b"function", Word::WFunction),
];

const G: Rows = &[(b"goto", Word::WGoto)];

const I: Rows = &[(b"if", Word::WIf), (b"in", Word::WIn)];

const L: Rows = &[(b"label", Word::WLabel)];

const M: Rows = &[(b"mod", Word::WMod)];

const N: Rows = &[(b"nil", Word::WNil), (b"not", Word::WNot)];

const O: Rows = &[(b"of", Word::WOf), (b"or", Word::WOr)];

const P: Rows = &[
    (b"packed", Word::WPacked),
    (b"procedure", Word::WProcedure),
    (b"program", Word::WProgram),
];

const R: Rows = &[(b"record", Word::WRecord), (b"repeat", Word::WRepeat)];

const S: Rows = &[(b"set", Word::WSet)];

const T: Rows = &[
    (b"then", Word::WThen),
    (b"to", Word::WTo),
    (b"type", Word::WType),
];

const U: Rows = &[(b"until", Word::WUntil)];

const V: Rows = &[(b"var", Word::WVar)];

const W: Rows = &[(b"while", Word::WWhile), (b"with", Word::WWith)];

/// The length of the shortest word symbols: many names have one letter.
const SHORTEST: usize = 2;

/// A name in small letters is this spelling.
fn is_spelt(name: &[u8], spelling: &[u8]) -> bool
    ensures { result ≡ bytes_eq spelling.now (str_to_ascii_lowercase name.now) }
{
    if name.len() != spelling.len() {
        return false;
    }
    for (at, letter) in spelling.iter().enumerate() {
        if name[at].to_ascii_lowercase() != *letter {
            return false;
        }
    }
    true
}

fn lookup(mut rows: &[(&[u8], Word)], name: &[u8]) -> Option<Word>
    ensures { result ≡ lexeme.lookup (map (λ row. (row.0.now, row.1)) rows.entry.now) (str_to_ascii_lowercase name.now) }
{
    while let [row, others @ ..] = rows {
        if is_spelt(name, row.0) {
            return Some(row.1);
        }
        rows = others;
    }
    None
}

/// The word symbols with this first letter.
#[tactic(auto, unfolding(crate::specs::Scan::words_of))]
fn words_of(letter: u8) -> Rows
    ensures { map (λ row. (row.0.now, row.1)) result.now ≡ scan.words_of letter }
{
    match letter {
        b'a' => A,
        b'b' => B,
        b'c' => C,
        b'd' => D,
        b'e' => E,
        b'f' => F,
        b'g' => G,
        b'i' => I,
        b'l' => L,
        b'm' => M,
        b'n' => N,
        b'o' => O,
        b'p' => P,
        b'r' => R,
        b's' => S,
        b't' => T,
        b'u' => U,
        b'v' => V,
        b'w' => W,
        _ => &[],
    }
}

/// The word symbol that is spelt like `name`, in letters of either case.
pub fn word_of(name: &[u8]) -> Option<Word>
    requires { 0 < length name.now }
    ensures { result ≡ lexeme.word_of name.now }
{
    if name.len() < SHORTEST {
        return None;
    }
    lookup(words_of(name[0].to_ascii_lowercase()), name)
}
