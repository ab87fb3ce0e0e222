//! Which types are of truths.
ghost use Rattle.std.specs.Prelude.{◌≡◌, ◌<◌, length};
ghost use Rattle.report.specs.Hosts as spec;

use pas_program::{Program, TypeDef};

/// Whether the numbers of a type, or of its elements, are truths. The time is linear in the number of subscripts that lead to one.
pub(crate) fn has_booleans(program: &Program, of_type: u32) -> bool
    requires { of_type < length program.now.types }
    ensures { result ≡ spec.has_booleans program.now.types of_type }
{
    let mut current = of_type;
    loop {
        match program.type_def(current) {
            TypeDef::Scalar { boolean, .. } => return boolean,
            TypeDef::Array { element, .. } => current = element,
        }
    }
}
