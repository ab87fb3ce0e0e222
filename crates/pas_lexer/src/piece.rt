//! The piece at the front of a text.

ghost use Rattle.std.specs.Prelude.{◌≡◌, ◌≢◌, ◌<◌, ◌≤◌, ◌+◌, ◌^◌, [], ◌∷◌, length, drop, slice_index, true, false, IfSome, SomeIff, IsTrue};
ghost use Rattle.std.specs.Char.{is_ascii_digit, is_ascii_alphabetic};
ghost use Rattle.std.specs.List.{prefix_len, list_all};
ghost use Rattle.pas_lexer.specs.Lexeme as lexeme;
ghost use Rattle.pas_lexer.specs.Covering as covering;
ghost use Rattle.pas_lexer.specs.Scan as scan;

use crate::token::{Symbol, TokenKind};
use crate::word::word_of;

/// A lexeme, or, where `token` is `None`, a separator or a comment, and its length in bytes.
#[derive(Clone, Copy, Debug)]
pub struct Piece {
    pub token: Option<TokenKind>,
    pub len: usize,
}

/// The largest number that a source may write.
const LARGEST: u64 = 2147483647;

/// The byte at `at`, or 0 past the end: no lexeme goes on with a 0.
pub fn byte_at(rest: &[u8], at: usize) -> u8
    ensures value { result ≡ slice_index rest.now at }
    ensures within { result ≢ 0 → at < length rest.now }
{
    if at < rest.len() { rest[at] } else { 0 }
}

fn is_separator(b: u8) -> bool
    ensures { result ≡ lexeme.is_separator b }
{
    b == b' ' || b == b'\t' || b == b'\r' || b == b'\n' || b == b'\x0c'
}

fn is_line_end(b: u8) -> bool
    ensures { result ≡ lexeme.is_line_end b }
{
    b == b'\n' || b == b'\r'
}

fn is_name_byte(b: u8) -> bool
    ensures { result ≡ lexeme.is_name_byte b }
{
    if b >= b'a' {
        b <= b'z'
    } else {
        b.is_ascii_uppercase() || b.is_ascii_digit() || b == b'_'
    }
}

fn name_len(rest: &[u8]) -> usize
    requires { is_ascii_alphabetic (slice_index rest.now 0) ≡ true }
    ensures value { result ≡ prefix_len lexeme.is_name_byte rest.now }
    ensures within { (0 < result) × (result ≤ length rest.now) }
{
    let mut len = 1;
    while len < rest.len() && is_name_byte(rest[len]) {
        len += 1;
    }
    len
}

fn digits_len(rest: &[u8]) -> usize
    ensures value { result ≡ prefix_len is_ascii_digit rest.now }
    ensures within { result ≤ length rest.now }
{
    let mut len = 0;
    while len < rest.len() && rest[len].is_ascii_digit() {
        len += 1;
    }
    len
}

fn name_kind(name: &[u8]) -> TokenKind
    requires { 0 < length name.now }
    ensures { result ≡ scan.name_kind name.now }
{
    match word_of(name) {
        Some(word) => TokenKind::Word(word),
        None => TokenKind::Ident,
    }
}

#[tactic(auto, unfolding(crate::specs::Scan::name))]
fn name(rest: &[u8]) -> Piece
    requires { is_ascii_alphabetic (slice_index rest.now 0) ≡ true }
    ensures value { result ≡ scan.name rest.now }
    ensures within { (0 < result.len) × (result.len ≤ length rest.now) }
{
    let len = name_len(rest);
    Piece {
        token: Some(name_kind(&rest[..len])),
        len,
    }
}

/// The value of decimal digits, if a source may write it.
fn value_of(digits: &[u8]) -> Option<u32>
    requires { IsTrue (list_all is_ascii_digit digits.now) }
    ensures { SomeIff result (lexeme.decimal digits.now ≤ 2147483647) (lexeme.decimal digits.now) }
{
    let mut value = 0;
    for digit in digits {
        value = value * 10 + u64::from(*digit - b'0');
        if value > LARGEST {
            return None;
        }
    }
    Some(value as u32)
}

#[tactic(auto, unfolding(crate::specs::Scan::number))]
fn number(rest: &[u8]) -> Option<Piece>
    requires { is_ascii_digit (slice_index rest.now 0) ≡ true }
    ensures value { result ≡ scan.number rest.now }
    ensures within { IfSome result (λ piece. (0 < piece.len) × (piece.len ≤ length rest.now)) }
{
    let len = digits_len(rest);
    let value = value_of(&rest[..len])?;
    Some(Piece {
        token: Some(TokenKind::Number(value)),
        len,
    })
}

fn string_end(rest: &[u8]) -> usize
    ensures value { result ≡ scan.string_end false 0 1 rest.now }
    ensures within { result ≤ length rest.now + 1 }
{
    let mut closed = 0;
    let mut after_quote = false;
    for (at, b) in rest.iter().enumerate() {
        if *b == b'\'' {
            if !after_quote {
                closed = at + 2;
            }
            after_quote = !after_quote;
        } else if after_quote || is_line_end(*b) {
            return closed;
        }
    }
    closed
}

#[tactic(auto, unfolding(crate::specs::Scan::string))]
fn string(rest: &[u8]) -> Option<Piece>
    requires { 0 < length rest.now }
    ensures value { result ≡ scan.string rest.now }
    ensures within { IfSome result (λ piece. (0 < piece.len) × (piece.len ≤ length rest.now)) }
{
    let len = string_end(&rest[1..]);
    if len == 0 {
        return None;
    }
    Some(Piece {
        token: Some(TokenKind::Text),
        len,
    })
}

fn comment_end(rest: &[u8], opening: usize) -> Option<usize>
    requires { opening ≤ length rest.now }
    ensures value { result ≡ scan.comment_end opening (drop opening rest.now) }
    ensures within { IfSome result (λ end. (opening < end) × (end ≤ length rest.now)) }
{
    let mut at = opening;
    while at < rest.len() {
        if rest[at] == b'}' {
            return Some(at + 1);
        }
        if rest[at] == b'*' && byte_at(rest, at + 1) == b')' {
            return Some(at + 2);
        }
        at += 1;
    }
    None
}

/// A comment opens at the front: outside an assertion, at `{` without `%` after it, and at `(*`.
pub fn opens_comment(inside: bool, rest: &[u8]) -> bool
    ensures value { result ≡ covering.opens_comment inside rest.now }
    ensures begins { IsTrue result → 0 < length rest.now }
    ensures two_bytes { IsTrue result → slice_index rest.now 0 ≢ 123 → 1 < length rest.now }
{
    let second = byte_at(rest, 1);
    match byte_at(rest, 0) {
        b'{' => second != b'%' && !inside,
        b'(' => second == b'*' && !inside,
        _ => false,
    }
}

#[tactic(auto, unfolding(crate::specs::Scan::comment))]
fn comment(rest: &[u8]) -> Option<Piece>
    requires begins { 0 < length rest.now }
    requires two_bytes { slice_index rest.now 0 ≢ 123 → 1 < length rest.now }
    ensures value { result ≡ scan.comment rest.now }
    ensures within { IfSome result (λ piece. (0 < piece.len) × (piece.len ≤ length rest.now)) }
{
    let opening = if rest[0] == b'{' { 1 } else { 2 };
    let len = comment_end(rest, opening)?;
    Some(Piece { token: None, len })
}

/// The special symbol that begins with these two bytes, and its length.
#[tactic(auto, unfolding(crate::specs::Scan::symbol, crate::specs::Lexeme::symbol_of))]
fn symbol(first: u8, second: u8) -> Option<Piece>
    ensures value { result ≡ scan.symbol first second }
    ensures within { IfSome result (λ piece. (0 < piece.len) × (piece.len ≤ 2) × (first ≢ 0) × (second ≡ 0 → piece.len ≡ 1)) }
{
    let (symbol, len) = match (first, second) {
        (b'<', b'>') => (Symbol::NotEqual, 2),
        (b'<', b'=') => (Symbol::LessEqual, 2),
        (b'>', b'=') => (Symbol::GreaterEqual, 2),
        (b':', b'=') => (Symbol::Assign, 2),
        (b'.', b'.') => (Symbol::DotDot, 2),
        (b'(', b'.') => (Symbol::LeftBracket, 2),
        (b'.', b')') => (Symbol::RightBracket, 2),
        (b'+', _) => (Symbol::Plus, 1),
        (b'-', _) => (Symbol::Minus, 1),
        (b'*', _) => (Symbol::Star, 1),
        (b'=', _) => (Symbol::Equal, 1),
        (b'<', _) => (Symbol::Less, 1),
        (b'>', _) => (Symbol::Greater, 1),
        (b':', _) => (Symbol::Colon, 1),
        (b';', _) => (Symbol::Semicolon, 1),
        (b',', _) => (Symbol::Comma, 1),
        (b'.', _) => (Symbol::Dot, 1),
        (b'(', _) => (Symbol::LeftParen, 1),
        (b')', _) => (Symbol::RightParen, 1),
        (b'[', _) => (Symbol::LeftBracket, 1),
        (b']', _) => (Symbol::RightBracket, 1),
        _ => return None,
    };
    lexeme(TokenKind::Symbol(symbol), len)
}

fn lexeme(kind: TokenKind, len: usize) -> Option<Piece>
    ensures { result ≡ Some (scan.piece (Some kind) len) }
{
    Some(Piece {
        token: Some(kind),
        len,
    })
}

#[tactic(auto, unfolding(crate::specs::Scan::mark))]
fn mark(inside: bool, first: u8, second: u8) -> Option<Piece>
    ensures value { result ≡ scan.mark inside first second }
    ensures within { IfSome result (λ piece. (0 < piece.len) × (piece.len ≤ 2) × (first ≢ 0) × (second ≡ 0 → piece.len ≡ 1)) }
{
    match first {
        b'{' if second == b'%' && !inside => lexeme(TokenKind::AssertStart, 2),
        b'%' if second == b'}' && inside => lexeme(TokenKind::AssertEnd, 2),
        b'?' if inside => lexeme(TokenKind::Query, 1),
        _ => symbol(first, second),
    }
}

/// The piece at the front of what is left of a text, inside or outside an assertion, if there is one.
#[tactic(auto, unfolding(crate::specs::Scan::next_piece))]
pub fn next_piece(inside: bool, rest: &[u8]) -> Option<Piece>
    requires { 0 < length rest.now }
    ensures value { result ≡ scan.next_piece inside rest.now }
    ensures within { IfSome result (λ piece. (0 < piece.len) × (piece.len ≤ length rest.now)) }
{
    let first = rest[0];
    if first.is_ascii_alphabetic() {
        Some(name(rest))
    } else if is_separator(first) {
        Some(Piece {
            token: None,
            len: 1,
        })
    } else if first.is_ascii_digit() {
        number(rest)
    } else if first == b'\'' {
        string(rest)
    } else if opens_comment(inside, rest) {
        comment(rest)
    } else {
        mark(inside, first, byte_at(rest, 1))
    }
}
