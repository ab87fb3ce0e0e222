//! Adding to a list of types.

ghost use Rattle.std.specs.Prelude.{◌≡◌, ◌++◌, ◌∷◌, [], ◌<◌, length, slice_get, OnErr, OnOk, true};
ghost use Rattle.std.specs.Bool.{OnTrue};
ghost use Rattle.pas_program.specs.Types as types;
ghost use Rattle.pas_program.specs.Types.{layout};

use crate::expr::in_host;
use crate::type_list::{MOST_ELEMENTS, TypeList};
use pas_program::TypeDef;
use sqlite_items::Items;
use std::alloc::{AllocError, Global};

impl TypeList {
    /// No types.
    pub fn new(alloc: Global) -> TypeList
        ensures { result.list ≡ [] }
    {
        TypeList {
            list: Items::new(alloc),
        }
    }

    /// Adds a type that the list takes.
    pub fn add(&mut self, of_type: TypeDef) -> Result<(), AllocError>
        requires { types.type_fits self.old.list (length self.old.list) of_type ≡ true }
        ensures ok { OnOk result (self.new.list ≡ self.old.list ++ of_type ∷ []) }
        ensures err { OnErr result (self.new.list ≡ self.old.list) }
    {
        self.list.push(of_type)
    }

    /// Whether a type may be added. An array's index type is scalar, and it has at most 1,000,000 scalars.
    pub fn takes(&self, of_type: TypeDef) -> bool
        ensures { OnTrue result (types.type_fits self.now.list (length self.now.list) of_type ≡ true) }
    {
        match of_type {
            TypeDef::Scalar { boolean, lo, hi } => {
                in_host(boolean, lo) && in_host(boolean, hi) && lo <= hi
            }
            TypeDef::Array { index, element } => {
                let known = self.list.len();
                if index as usize >= known || element as usize >= known {
                    return false;
                }
                self.is_scalar(index)
                    && u64::from(self.count_values(index)) * u64::from(self.elements(element))
                        <= u64::from(MOST_ELEMENTS)
            }
        }
    }

    /// What the type `t` is.
    pub fn type_def(&self, t: u32) -> TypeDef
        requires { t < length self.now.list }
        ensures value { slice_get self.now.list t ≡ Some result }
    {
        self.list.as_slice()[t as usize]
    }

    fn is_scalar(&self, t: u32) -> bool
        requires { t < length self.now.list }
        ensures { result ≡ types.is_scalar (slice_get self.now.list t) }
    {
        matches!(self.type_def(t), TypeDef::Scalar { .. })
    }

    /// How many values a scalar type has.
    fn count_values(&self, t: u32) -> u32
        requires in_range { t < length self.now.list }
        requires scalar { types.is_scalar (slice_get self.now.list t) ≡ true }
        ensures { result ≡ types.count_values (slice_get self.now.list t) }
    {
        match self.type_def(t) {
            TypeDef::Scalar { lo, hi, .. } => hi.abs_diff(lo) + 1,
            TypeDef::Array { .. } => unreachable!(),
        }
    }

    /// How many scalars a value of the type is made of.
    pub fn elements(&self, t: u32) -> u32
        requires { t < length self.now.list }
        ensures { result ≡ (layout self.now.list t).count }
    {
        let mut t = t;
        let mut count = 1;
        loop {
            match self.type_def(t) {
                TypeDef::Scalar { .. } => return count,
                TypeDef::Array { index, element } => {
                    count *= self.count_values(index);
                    t = element;
                }
            }
        }
    }
}
