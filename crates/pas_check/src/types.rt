//! The types of a program.

ghost use Rattle.std.specs.Prelude.{◌≡◌, ◌<◌, ◌≤◌, ◌^◌, ◌*◌, ◌++◌, ◌∷◌, [], IfErr, IfOk, OnOk, length, slice_get};
ghost use Rattle.pas_program.specs.Types as types;
ghost use Rattle.pas_program.specs.Types.{layout};
ghost use Rattle.pas_check.specs.Blocks.{required_types};
ghost use Rattle.pas_check.specs.Declarations.{array_of, range_of};
ghost use Rattle.pas_check.specs.Outcome.{Gives, IsMemory};
ghost use Rattle.pas_check.specs.Sight.{host_of, parts_of};

use crate::fault::{Fault, Rule};
use pas_program::TypeDef;
use pas_valid::TypeList;
use sqlite_items::at;
use std::alloc::{AllocError, Global};

/// The types that were made so far.
#[derive(Drop)]
pub struct Types {
    list: TypeList,
}

/// The number of the type `integer`.
pub const INTEGER: u32 = 0;

/// The number of the type `Boolean`.
pub const BOOLEAN: u32 = 1;

/// The most scalars that an array may have.
const MOST_ELEMENTS: u64 = 1_000_000;

impl Types {
    /// `integer` and `Boolean`.
    pub fn new(alloc: Global) -> Result<Types, Fault>
        ensures list { IfOk result (λ t. t.list.list ≡ required_types) }
        ensures memory { IfErr result IsMemory }
    {
        let mut types = Types {
            list: TypeList::new(alloc),
        };
        let _integer = types.add_range(false, -i32::MAX, i32::MAX, 0)?;
        let _boolean = types.add_range(true, 0, 1, 0)?;
        Ok(types)
    }

    /// The number of a new subrange, whose first constant stands at `at`.
    pub fn add_range(&mut self, boolean: bool, lo: i32, hi: i32, at: u32) -> Result<u32, Fault>
        ensures value { Gives (λ n. (n, self.new.list.list)) (range_of self.old.list.list boolean lo hi at) result }
    {
        if hi < lo {
            return Err(Rule::Range.broken(at));
        }
        self.add(TypeDef::Scalar { boolean, lo, hi })
    }

    /// The number of a new array, whose word stands at `at`.
    pub fn add_array(&mut self, index: u32, element: u32, at: u32) -> Result<u32, Fault>
        ensures value { Gives (λ n. (n, self.new.list.list)) (array_of self.old.list.list index element at) result }
    {
        if element as usize >= self.list.list.len() {
            return Err(Fault::Memory(AllocError));
        }
        if self.count_scalars(index, element) > MOST_ELEMENTS {
            return Err(Rule::Elements.broken(at));
        }
        self.add(TypeDef::Array { index, element })
    }

    /// How many scalars an array has.
    fn count_scalars(&self, index: u32, element: u32) -> u64
        requires { element < length self.now.list.list }
        ensures { result ≡ types.count_values (slice_get self.now.list.list index) * (layout self.now.list.list element).count }
    {
        self.count_values(index) * u64::from(self.list.elements(element))
    }

    /// How many values a scalar type has.
    fn count_values(&self, t: u32) -> u64
        ensures value { result ≡ types.count_values (slice_get self.now.list.list t) }
        ensures most { result ≤ 2 ^ 32 }
    {
        match at(self.list.list.as_slice(), t as usize) {
            Some(TypeDef::Scalar { lo, hi, .. }) => u64::from(hi.abs_diff(*lo)) + 1,
            _ => 0,
        }
    }

    /// The number of a new type, which is one that the list takes.
    fn add(&mut self, of_type: TypeDef) -> Result<u32, Fault>
        ensures number { IfOk result (λ n. n ≡ length self.old.list.list) }
        ensures added { OnOk result (self.new.list.list ≡ self.old.list.list ++ of_type ∷ []) }
        ensures memory { IfErr result IsMemory }
    {
        let Ok(number) = u32::try_from(self.list.list.len()) else {
            return Err(Fault::Memory(AllocError));
        };
        if !self.list.takes(of_type) {
            return Err(Fault::Memory(AllocError));
        }
        match self.list.add(of_type) {
            Ok(()) => Ok(number),
            Err(error) => Err(Fault::Memory(error)),
        }
    }

    /// The host of a scalar type: whether it is `Boolean`.
    pub fn host(&self, t: u32) -> Option<bool>
        ensures { result ≡ host_of (slice_get self.now.list.list t) }
    {
        match at(self.list.list.as_slice(), t as usize) {
            Some(TypeDef::Scalar { boolean, .. }) => Some(*boolean),
            _ => None,
        }
    }

    /// The index and the element type of an array type.
    pub fn parts(&self, t: u32) -> Option<(u32, u32)>
        ensures { result ≡ parts_of (slice_get self.now.list.list t) }
    {
        match at(self.list.list.as_slice(), t as usize) {
            Some(TypeDef::Array { index, element }) => Some((*index, *element)),
            _ => None,
        }
    }

    /// All of them.
    pub fn into_list(self) -> TypeList
        ensures { result ≡ self.list }
    {
        let Types { list } = self;
        list
    }
}
