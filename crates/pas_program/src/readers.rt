ghost use Rattle.std.specs.Prelude.{◌≡◌, ◌<◌, length, slice_get, true};
ghost use Rattle.pas_program.specs.Checked.{numbers_in, scope_in, tables};
ghost use Rattle.pas_program.specs.Each.{each_expr, each_statement};
ghost use Rattle.pas_program.specs.Typed.{hosted, is_of_host, reached, statement_types_fit};
ghost use Rattle.pas_program.specs.Types.{TypesFit, type_fits};
ghost use Rattle.pas_program.specs.Valid.{IsValid};

use crate::expr::Access;
use crate::program::Program;
use crate::routine::{Assert, Routine};
use crate::type_def::TypeDef;
use crate::variable::VarDef;
use sqlite_items::Items;

/// Each part by its number, with what validity says of it.
impl Program {
    /// The program of these parts.
    pub fn new(
        types: Items<TypeDef>,
        vars: Items<VarDef>,
        routines: Items<Routine>,
        asserts: Items<Assert>,
    ) -> Program
        requires types_fit { TypesFit types }
        requires valid { IsValid types vars routines asserts }
        ensures same_types { result.types ≡ types }
        ensures same_vars { result.vars ≡ vars }
        ensures same_routines { result.routines ≡ routines }
        ensures same_asserts { result.asserts ≡ asserts }
    {
        Program {
            types,
            vars,
            routines,
            asserts,
        }
    }

    /// What the type `t` is. An array's index and element types have smaller numbers than its own.
    pub fn type_def(&self, t: u32) -> TypeDef
        requires { t < length self.now.types }
        ensures value { slice_get self.now.types t ≡ Some result }
        ensures fits { type_fits self.now.types t result ≡ true }
    {
        self.types.as_slice()[t as usize]
    }

    /// What the variable `v` is.
    pub fn var_def(&self, v: u32) -> VarDef
        requires { v < length self.now.vars }
        ensures value { slice_get self.now.vars v ≡ Some result }
        ensures routine_in_range { result.routine < length self.now.routines }
        ensures type_in_range { result.of_type < length self.now.types }
    {
        self.vars.as_slice()[v as usize]
    }

    /// The routine `r`.
    pub fn routine(&self, r: u32) -> &Routine
        requires { r < length self.now.routines }
        ensures value { slice_get self.now.routines r ≡ Some result.now }
        ensures numbers { each_statement (numbers_in self.now) result.now.body ≡ true }
        ensures types { statement_types_fit (tables self.now) result.now.body ≡ true }
        ensures scopes { each_statement (scope_in self.now r) result.now.body ≡ true }
    {
        &self.routines.as_slice()[r as usize]
    }

    /// The assertion `a`.
    pub fn assertion(&self, a: u32) -> &Assert
        requires { a < length self.now.asserts }
        ensures value { slice_get self.now.asserts a ≡ Some result.now }
        ensures numbers { each_expr (numbers_in self.now) result.now.cond ≡ true }
        ensures types { is_of_host true (hosted (tables self.now) result.now.cond) ≡ true }
        ensures scopes { each_expr (scope_in self.now result.now.routine) result.now.cond ≡ true }
    {
        &self.asserts.as_slice()[a as usize]
    }

    /// The type of a variable or of an element of it. The time is linear in the number of subscripts.
    pub fn type_of_access(&self, access: &Access) -> u32
        requires { (reached (tables self.now) access.now).fits ≡ true }
        ensures value { result ≡ (reached (tables self.now) access.now).of_type }
        ensures in_range { result < length self.now.types }
    {
        let mut t = self.var_def(access.var).of_type;
        for _subscript in access.subscripts.as_slice() {
            match self.type_def(t) {
                TypeDef::Array { element, .. } => t = element,
                TypeDef::Scalar { .. } => unreachable!(),
            }
        }
        t
    }
}
