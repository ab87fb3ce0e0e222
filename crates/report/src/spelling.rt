//! How names are spelled.
ghost use Rattle.std.specs.Prelude.{◌≡◌};
ghost use Rattle.pas_check.specs.Names.{spelling};

use px_base::Span;

/// The bytes of a span of a text.
pub(crate) fn bytes_of(text: &[u8], span: Span) -> &[u8]
    ensures { result.now ≡ spelling text.now span }
{
    let (start, end) = (span.start as usize, span.end as usize);
    if start <= end && end <= text.len() {
        &text[start..end]
    } else {
        &[]
    }
}
