ghost use Rattle.std.specs.Prelude.{◌≡◌, ◌==◌, ◌<◌, length, slice_get, true};
ghost use Rattle.pas_program.specs.Types.{compatible, count_values, is_scalar, layout};

use crate::program::Program;
use crate::type_def::TypeDef;

/// The rules of types (ISO 7185, 6.4.5 to 6.4.7).
impl Program {
    /// Whether both are one type. Two that are written alike are not.
    pub fn same_type(&self, a: u32, b: u32) -> bool
        requires a_in_range { a < length self.now.types }
        requires b_in_range { b < length self.now.types }
        ensures { result ≡ (a == b) }
    {
        a == b
    }

    /// Whether both are one type, or scalars of one host.
    pub fn compatible(&self, a: u32, b: u32) -> bool
        requires a_in_range { a < length self.now.types }
        requires b_in_range { b < length self.now.types }
        ensures { result ≡ compatible self.now.types a b }
    {
        match (self.type_def(a), self.type_def(b)) {
            (TypeDef::Scalar { boolean, .. }, TypeDef::Scalar { boolean: other, .. }) => {
                self.same_type(a, b) || boolean == other
            }
            _ => self.same_type(a, b),
        }
    }

    /// The least and the greatest value of a scalar, and for an array those of its elements. The time is linear in the
    /// number of subscripts that lead to one.
    pub fn type_range(&self, t: u32) -> (i32, i32)
        requires { t < length self.now.types }
        ensures { result ≡ ((layout self.now.types t).lo, (layout self.now.types t).hi) }
    {
        let mut t = t;
        loop {
            match self.type_def(t) {
                TypeDef::Scalar { lo, hi, .. } => return (lo, hi),
                TypeDef::Array { element, .. } => t = element,
            }
        }
    }

    /// How many scalars a value of the type is made of. The time is linear in the number of subscripts that lead to one.
    pub fn elements(&self, t: u32) -> u32
        requires { t < length self.now.types }
        ensures { result ≡ (layout self.now.types t).count }
    {
        let mut t = t;
        let mut count = 1;
        loop {
            match self.type_def(t) {
                TypeDef::Scalar { .. } => return count,
                TypeDef::Array { index, element } => {
                    count *= self.count_values(index);
                    t = element;
                }
            }
        }
    }

    /// How many values a scalar type has.
    fn count_values(&self, t: u32) -> u32
        requires in_range { t < length self.now.types }
        requires scalar { is_scalar (slice_get self.now.types t) ≡ true }
        ensures { result ≡ count_values (slice_get self.now.types t) }
    {
        match self.type_def(t) {
            TypeDef::Scalar { lo, hi, .. } => hi.abs_diff(lo) + 1,
            TypeDef::Array { .. } => unreachable!(),
        }
    }
}
