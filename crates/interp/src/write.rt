//! The text that `write` gives (ISO 7185, 6.9.3).
ghost use Rattle.std.specs.Prelude.{◌≡◌, ◌++◌, false, true, OnErr, OnOk, Some};
ghost use Rattle.control_points.specs.Output.{Written};
ghost use Rattle.interp.specs.Meant.{bytes_of, in_width};

use itoa::Buffer;
use std::alloc::AllocError;

/// What is written, without its width.
#[derive(Clone, Copy, Debug)]
pub(crate) enum Text<'a> {
    Number(i32),
    Truth(bool),
    Bytes(&'a [u8]),
}

/// What is written.
#[derive(Clone, Copy, Debug)]
pub(crate) struct Output<'a> {
    pub text: Text<'a>,
    /// The number of columns, at the right of which it stands.
    pub width: Option<u16>,
}

/// Writes at the end what there is to be written.
///
/// # Errors
///
/// Where memory is lacking; then nothing is written.
pub(crate) fn write_any(to: &mut Vec<u8>, output: Option<Output<'_>>) -> Result<(), AllocError>
    ensures written { OnOk result (to.new.items ≡ to.old.items ++ bytes_of output.entry) }
    ensures kept { OnErr result (to.new.items ≡ to.old.items) }
{
    match output {
        Some(output) => write(to, output),
        None => Ok(()),
    }
}

/// Writes it at the end.
///
/// # Errors
///
/// Where memory is lacking; then nothing is written.
fn write(to: &mut Vec<u8>, output: Output<'_>) -> Result<(), AllocError>
    ensures written { OnOk result (to.new.items ≡ to.old.items ++ bytes_of (Some output.entry)) }
    ensures kept { OnErr result (to.new.items ≡ to.old.items) }
{
    match output.text {
        Text::Number(z) => {
            let mut buffer = Buffer::new();
            let text = buffer.format(z).as_bytes();
            in_columns(to, text, output.width)
        }
        Text::Truth(b) => cut(to, if b { b"true" } else { b"false" }, output.width),
        Text::Bytes(bytes) => cut(to, bytes, output.width),
    }
}

/// Writes the text, of which a width may cut the end off.
fn cut(to: &mut Vec<u8>, text: &[u8], width: Option<u16>) -> Result<(), AllocError>
    ensures written { OnOk result (to.new.items ≡ to.old.items ++ in_width width (record { bytes = text.now; is_cut = true })) }
    ensures kept { OnErr result (to.new.items ≡ to.old.items) }
{
    match width {
        Some(columns) if usize::from(columns) < text.len() => {
            in_columns(to, &text[..usize::from(columns)], width)
        }
        _ => in_columns(to, text, width),
    }
}

/// Writes the text at the right of the columns.
fn in_columns(to: &mut Vec<u8>, text: &[u8], width: Option<u16>) -> Result<(), AllocError>
    ensures written { OnOk result (to.new.items ≡ to.old.items ++ in_width width (record { bytes = text.now; is_cut = false })) }
    ensures kept { OnErr result (to.new.items ≡ to.old.items) }
{
    let columns = usize::from(width.unwrap_or(0));
    let before = to.len();
    to.resize(before + columns.saturating_sub(text.len()), b' ')?;
    let written = to.extend_from_slice(text);
    if written.is_err() {
        to.truncate(before);
    }
    written
}
