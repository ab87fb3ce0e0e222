ghost use Rattle.std.specs.Prelude.{◌≡◌, ◌≤◌, length, IfOk, IfSome};
ghost use Rattle.std.specs.List.{position_or_len};
ghost use Rattle.std.specs.Option.{ForSome};
ghost use Rattle.control_points.specs.Runs.{IsInput};
ghost use Rattle.interp.specs.InputItems as spec;

use control_points::Item;
use std::alloc::{AllocError, Global};

/// The items of an input (ISO 7185, 6.9.1): a line feed is a line end; spaces, tabs and carriage returns separate; a
/// longest run of other bytes is a number, or else junk.
///
/// # Errors
///
/// Where memory is lacking.
pub fn items_of(alloc: Global, bytes: &[u8]) -> Result<Vec<Item>, AllocError>
    ensures items { IfOk result (λ items. items.items ≡ spec.items_of bytes.now) }
    ensures numbers { IfOk result (λ items. IsInput items.items) }
{
    let mut items = Vec::new(alloc);
    let mut rest = bytes;
    while let Some((first, others)) = rest.split_first() {
        if is_between(*first) {
            if *first == b'\n' {
                items.push(Item::LineEnd)?;
            }
            rest = others;
        } else {
            let (word, after) = rest.split_at(word_end(rest));
            items.push(item_of(word))?;
            rest = after;
        }
    }
    Ok(items)
}

/// Whether a byte ends a run: a line feed, or one that separates.
fn is_between(byte: u8) -> bool
    ensures { result ≡ spec.is_between byte }
{
    byte == b'\n' || byte == b' ' || byte == b'\t' || byte == b'\r'
}

/// The number of bytes before the first one that ends a run.
fn word_end(bytes: &[u8]) -> usize
    ensures within { result ≤ length bytes.now }
    ensures value { result ≡ position_or_len spec.is_between bytes.now }
{
    for (i, byte) in bytes.iter().enumerate() {
        if is_between(*byte) {
            return i;
        }
    }
    bytes.len()
}

/// The item that a run of bytes is.
fn item_of(word: &[u8]) -> Item
    ensures { result ≡ spec.word_item word.now }
{
    match word {
        [b'-', digits @ ..] => signed_item(true, magnitude(digits)),
        [b'+', digits @ ..] => signed_item(false, magnitude(digits)),
        digits => signed_item(false, magnitude(digits)),
    }
}

/// The number with its sign, or junk.
fn signed_item(negative: bool, magnitude: Option<u32>) -> Item
    requires { ForSome magnitude (λ n. n ≤ 2147483647) }
    ensures { result ≡ spec.number_item (spec.signed negative) magnitude }
{
    match magnitude {
        Some(n) if negative => Item::Number(-(n as i32)),
        Some(n) => Item::Number(n as i32),
        None => Item::Junk,
    }
}

/// The value of one or more digits, where it is at most `maxint`.
fn magnitude(digits: &[u8]) -> Option<u32>
    ensures value { result ≡ spec.magnitude digits.now }
    ensures small { IfSome result (λ n. n ≤ 2147483647) }
{
    let mut value = 0u32;
    for digit in digits {
        if !is_digit(*digit) || value > 214_748_364 {
            return None;
        }
        value = value * 10 + u32::from(*digit - b'0');
    }
    if digits.is_empty() || value > 2_147_483_647 {
        return None;
    }
    Some(value)
}

fn is_digit(byte: u8) -> bool
    ensures { result ≡ spec.is_digit byte }
{
    b'0' <= byte && byte <= b'9'
}

#[cfg(test)]
mod tests {
    use super::*;
    use std::test::Fail;

    #[test]
    fn of_bytes(rt: HostRuntime) -> Result<(), Fail> {
        let cases: [(&[u8], &[Item]); 8] = [
            (b"", &[]),
            (b"12\n", &[Item::Number(12), Item::LineEnd]),
            (
                b" -5\t+7\r\n8",
                &[
                    Item::Number(-5),
                    Item::Number(7),
                    Item::LineEnd,
                    Item::Number(8),
                ],
            ),
            (
                b"- + 1- --1",
                &[Item::Junk, Item::Junk, Item::Junk, Item::Junk],
            ),
            (
                b"2147483647 -2147483647",
                &[Item::Number(i32::MAX), Item::Number(-i32::MAX)],
            ),
            (
                b"2147483648 -2147483648 99999999999",
                &[Item::Junk, Item::Junk, Item::Junk],
            ),
            (
                b"0000000000000000001\x0c2 \n\n",
                &[Item::Junk, Item::LineEnd, Item::LineEnd],
            ),
            (b"-0 1x", &[Item::Number(0), Item::Junk]),
        ];
        for (bytes, expected) in cases {
            let items = items_of(rt.alloc(), bytes)?;
            assert_eq!(rt; items.as_slice(), expected, "{bytes:?}");
        }
        Ok(())
    }
}
