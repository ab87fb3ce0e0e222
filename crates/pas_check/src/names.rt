//! How names are spelled (ISO 7185, 6.1.1).

ghost use Rattle.std.specs.Prelude.{◌≡◌, Err, Ok, OnOk, false, true};
ghost use Rattle.std.specs.Str.{str_to_ascii_lowercase};
ghost use Rattle.px_base.specs.declared.place.Span.{Span as Place};
ghost use Rattle.pas_check.specs.declared.fault.Fault.TheVariants.{Broken};
ghost use Rattle.pas_check.specs.declared.fault.Rule.TheVariants as rule;
ghost use Rattle.pas_check.specs.declared.meaning.Meaning.{Meaning};
ghost use Rattle.pas_check.specs.Expr.{meant};
ghost use Rattle.pas_check.specs.Names as spec;
ghost use Rattle.pas_check.specs.Names.{name_at};
ghost use Rattle.pas_check.specs.Rules.{is_not_ended, is_unknown};
ghost use Rattle.pas_check.specs.Sight.{Sight};

use px_base::Span;
use std::alloc::AllocError;

/// The bytes of a span of a text.
pub fn spelling(text: &[u8], span: Span) -> &[u8]
    ensures { result.now ≡ spec.spelling text.now span }
{
    let (start, end) = (span.start as usize, span.end as usize);
    if start <= end && end <= text.len() {
        &text[start..end]
    } else {
        &[]
    }
}

/// Puts a spelling into a buffer, in lower case.
pub fn lower_case(bytes: &[u8], lower: &mut Vec<u8>) -> Result<(), AllocError>
    ensures { OnOk result (lower.new.items ≡ str_to_ascii_lowercase bytes.now) }
{
    lower.clear();
    for byte in bytes {
        lower.push(byte.to_ascii_lowercase())?;
    }
    Ok(())
}

/// A law: a name that is used has no meaning where no block around declares it, and none where its declaration has not ended; else
/// it has one (ISO 7185, 6.2.2).
pub fn names_mean_by_the_rules()
    ensures unknown { (v : Sight) (name : Place) → is_unknown (name_at v.text name) v.blocks ≡ true → meant v name ≡ Err (Broken rule.Known name.start) }
    ensures not_ended { (v : Sight) (name : Place) → is_not_ended (name_at v.text name) v.blocks ≡ true → meant v name ≡ Err (Broken rule.DeclaredBefore name.start) }
    ensures known { (v : Sight) (name : Place) → is_unknown (name_at v.text name) v.blocks ≡ false → is_not_ended (name_at v.text name) v.blocks ≡ false → (m : Meaning) × (meant v name ≡ Ok m) }
{}
