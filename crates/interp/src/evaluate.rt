//! The value of an expression, and where a variable lies (ISO 7185, 6.5 and 6.7).
ghost use Rattle.std.specs.Prelude.{◌≡◌, ◌<◌, ◌≤◌, length, map, slice_get, unwrap_or, IfOk, None, Some, true};
ghost use Rattle.arithmetic.specs.Numbers.{IsNumber};
ghost use Rattle.pas_program.specs.declared.expr.Actual.TheViews.{out-Access};
ghost use Rattle.pas_program.specs.Checked.{numbers_in, scope_in, tables};
ghost use Rattle.pas_program.specs.Each.{all_true, each_access, each_expr};
ghost use Rattle.pas_program.specs.Tables.{is_around, is_visible};
ghost use Rattle.pas_program.specs.Typed.{hosted, reached, subscripted, type_of_var};
ghost use Rattle.pas_program.specs.Types.{is_scalar};
ghost use Rattle.control_points.specs.Actions.{top_depth};
ghost use Rattle.control_points.specs.Evaluation as meaning;
ghost use Rattle.control_points.specs.Evaluation.{checked, defined, is_value_of, placed, subscript_values, var_type};
ghost use Rattle.control_points.specs.Finding.{around, place_of};
ghost use Rattle.control_points.specs.Storage.{Place, whole};
ghost use Rattle.interp.specs.Meant.{InState, IsPart, IsSpot, valued, view_in};
ghost use Rattle.interp.specs.Places.{Lies, place_in};
ghost use Rattle.interp.specs.Deeds.{HasRoom, IsOwn};
ghost use Rattle.interp.specs.Layouts.{count_of};
ghost use Rattle.interp.specs.Machines.{end_of, routine_of, top_of, top_routine};

use crate::frame::{Extent, Frame};
use crate::machine::Machine;
use arithmetic::{binary_result, unary_result};
use control_points::Fault;
use pas_program::{Access, Expr, ExprForm, TypeDef, VarKind};
use px_base::Kind;

impl Machine<'_> {
    /// The latest activation.
    pub(crate) fn top(&self) -> &Frame
        ensures { slice_get self.now.frames.items (top_of self.now.frames.items) ≡ Some result.now }
    {
        &self.frames[self.frames.len() - 1]
    }

    /// Where the storage of all activations ends.
    pub(crate) fn end(&self) -> Extent
        ensures { result ≡ end_of self.now.flow.now.program self.now.frames.items }
    {
        let top = self.top();
        let extent = self.extent_of(top.routine);
        Extent {
            scalars: top.base.scalars + extent.scalars,
            links: top.base.links + extent.links,
        }
    }

    /// The depth of the activation of a routine that is the latest one or around it.
    pub(crate) fn depth_of(&self, routine: usize) -> usize
        requires { is_around (tables self.now.flow.now.program) (top_routine self.now.frames.items) routine ≡ true }
        ensures found { routine_of self.now.frames.items result ≡ Some routine }
        ensures around { InState self.now (λ s. around s.stack (top_depth s.stack) routine ≡ Some result) }
    {
        let mut depth = self.frames.len() - 1;
        'around: loop {
            let frame = &self.frames[depth];
            if frame.routine == routine {
                return depth;
            }
            match frame.parent {
                Some(parent) => depth = parent,
                None => unreachable!(),
            }
        }
    }

    /// The first scalar of a variable.
    pub(crate) fn address_of(&self, var: u32) -> usize
        requires in_range { var < length self.now.flow.now.program.vars }
        requires visible { is_visible (tables self.now.flow.now.program) (top_routine self.now.frames.items) var ≡ true }
        ensures room { HasRoom self.now.flow.now.program self.now.frames.items (var_type (tables self.now.flow.now.program) var) result }
        ensures exact { InState self.now (λ s. Lies self.now.flow.now.program self.now.frames.items (place_of (tables self.now.flow.now.program) s.stack (top_depth s.stack) var) result (var_type (tables self.now.flow.now.program) var)) }
    {
        let def = self.flow.program.var_def(var);
        let depth = self.depth_of(def.routine as usize);
        match def.kind {
            VarKind::Var => self.links[self.frames[depth].base.links + self.offset_of(var).links],
            _ => self.scalar_of(depth, var),
        }
    }

    /// The first scalar of a variable of the activation at a depth. It is no variable parameter.
    pub(crate) fn scalar_of(&self, depth: usize, var: u32) -> usize
        requires in_range { var < length self.now.flow.now.program.vars }
        requires own { IsOwn self.now.flow.now.program self.now.frames.items depth var }
        ensures room { HasRoom self.now.flow.now.program self.now.frames.items (var_type (tables self.now.flow.now.program) var) result }
        ensures exact { Lies self.now.flow.now.program self.now.frames.items (whole depth var) result (var_type (tables self.now.flow.now.program) var) }
    {
        self.frames[depth].base.scalars + self.offset_of(var).scalars
    }

    /// The first scalar of the variable that an access denotes.
    #[cycle(evaluate)]
    pub(crate) fn spot(&self, access: &Access) -> Result<usize, Fault>
        requires numbers { each_access (numbers_in self.now.flow.now.program) access.now ≡ true }
        requires types { (reached (tables self.now.flow.now.program) access.now).fits ≡ true }
        requires scopes { each_access (scope_in self.now.flow.now.program (top_routine self.now.frames.items)) access.now ≡ true }
        ensures room { IfOk result (HasRoom self.now.flow.now.program self.now.frames.items (reached (tables self.now.flow.now.program) access.now).of_type) }
        ensures exact { InState self.now (λ s. IsSpot self.now.flow.now.program self.now.frames.items (reached (tables self.now.flow.now.program) access.now).of_type (out-Access access.now).at (meaning.spot (view_in self.now s) access.now) result) }
    {
        let of_type = self.flow.program.var_def(access.var).of_type;
        let address = self.address_of(access.var);
        self.element(address, of_type, access.subscripts.as_slice())
    }

    /// The first scalar of the part of a variable that subscripts lead to.
    #[cycle(evaluate)]
    fn element(&self, address: usize, of_type: u32, subscripts: &[Expr]) -> Result<usize, Fault>
        requires in_range { of_type < length self.now.flow.now.program.types }
        requires whole { HasRoom self.now.flow.now.program self.now.frames.items of_type address }
        requires numbers { all_true (map (each_expr (numbers_in self.now.flow.now.program)) subscripts.now) ≡ true }
        requires types { (subscripted (tables self.now.flow.now.program) of_type (map (hosted (tables self.now.flow.now.program)) subscripts.now)).fits ≡ true }
        requires scopes { all_true (map (each_expr (scope_in self.now.flow.now.program (top_routine self.now.frames.items))) subscripts.now) ≡ true }
        ensures room { IfOk result (HasRoom self.now.flow.now.program self.now.frames.items (subscripted (tables self.now.flow.now.program) of_type (map (hosted (tables self.now.flow.now.program)) subscripts.now)).of_type) }
        ensures exact { InState self.now (λ s. (q : Place) → Lies self.now.flow.now.program self.now.frames.items q address of_type → IsPart self.now.flow.now.program self.now.frames.items q (subscripted (tables self.now.flow.now.program) of_type (map (hosted (tables self.now.flow.now.program)) subscripts.now)).of_type (subscript_values (tables self.now.flow.now.program) of_type (map (valued (view_in self.now s)) subscripts.now)) result) }
    {
        let mut address = address;
        let mut of_type = of_type;
        for subscript in subscripts {
            let z = self.value(subscript)?;
            match self.flow.program.type_def(of_type) {
                TypeDef::Array { index, element } => {
                    let place = self.place_in(index, z, subscript.first)?;
                    address += place * self.count_of(element);
                    of_type = element;
                }
                TypeDef::Scalar { .. } => unreachable!(),
            }
        }
        Ok(address)
    }

    /// The value of an expression.
    #[cycle(evaluate)]
    pub(crate) fn value(&self, e: &Expr) -> Result<i32, Fault>
        requires numbers { each_expr (numbers_in self.now.flow.now.program) e.now ≡ true }
        requires types { (hosted (tables self.now.flow.now.program) e.now).fits ≡ true }
        requires scopes { each_expr (scope_in self.now.flow.now.program (top_routine self.now.frames.items)) e.now ≡ true }
        ensures number { IfOk result IsNumber }
        ensures exact { InState self.now (λ s. meaning.value (view_in self.now s) e.now ≡ result) }
    {
        match &e.form {
            ExprForm::Const { value, .. } => Ok(*value),
            ExprForm::Value(access) => self.used(self.spot(access)?, access.at),
            ExprForm::Unary { op, of, at } => {
                let x = self.value(of.get())?;
                placed(*at, unary_result(*op, x))
            }
            ExprForm::Binary {
                op,
                left,
                right,
                at,
            } => {
                let x = self.value(left.get())?;
                let y = self.value(right.get())?;
                placed(*at, binary_result(*op, x, y))
            }
            ExprForm::Call { slot, at, .. } => self.used(self.address_of(*slot), *at),
        }
    }

    /// The value of an expression for a variable of the type, which it must be a value of.
    pub(crate) fn assigned(&self, of_type: u32, e: &Expr) -> Result<i32, Fault>
        requires in_range { of_type < length self.now.flow.now.program.types }
        requires numbers { each_expr (numbers_in self.now.flow.now.program) e.now ≡ true }
        requires types { (hosted (tables self.now.flow.now.program) e.now).fits ≡ true }
        requires scopes { each_expr (scope_in self.now.flow.now.program (top_routine self.now.frames.items)) e.now ≡ true }
        ensures number { IfOk result IsNumber }
        ensures exact { InState self.now (λ s. meaning.assigned (view_in self.now s) of_type e.now ≡ result) }
    {
        let z = self.value(e)?;
        checked(
            self.is_value_of(of_type, z),
            Kind::ValueOutOfRange,
            e.first,
            z,
        )
    }

    /// Whether a number is a value of a scalar type.
    pub(crate) fn is_value_of(&self, of_type: u32, z: i32) -> bool
        requires { of_type < length self.now.flow.now.program.types }
        ensures { result ≡ is_value_of (slice_get self.now.flow.now.program.types of_type) z }
    {
        match self.flow.program.type_def(of_type) {
            TypeDef::Scalar { lo, hi, .. } => lo <= z && z <= hi,
            TypeDef::Array { .. } => false,
        }
    }

    /// Which value of an index type it is, counted from 0.
    fn place_in(&self, index: u32, z: i32, at: u32) -> Result<usize, Fault>
        requires in_range { index < length self.now.flow.now.program.types }
        requires scalar { is_scalar (slice_get self.now.flow.now.program.types index) ≡ true }
        ensures value { result ≡ place_in (slice_get self.now.flow.now.program.types index) z at }
    {
        match self.flow.program.type_def(index) {
            TypeDef::Scalar { lo, hi, .. } if lo <= z && z <= hi => Ok(z.abs_diff(lo) as usize),
            _ => Err(Fault {
                kind: Kind::IndexOutOfRange,
                at,
            }),
        }
    }

    /// The number that a scalar holds, which must have one.
    pub(crate) fn used(&self, address: usize, at: u32) -> Result<i32, Fault>
        requires { address < (end_of self.now.flow.now.program self.now.frames.items).scalars }
        ensures value { result ≡ defined at (unwrap_or (slice_get self.now.scalars.items address) None) }
        ensures number { IfOk result IsNumber }
    {
        self.scalars[address].ok_or(Fault {
            kind: Kind::UndefinedValue,
            at,
        })
    }
}

/// The number, where it passes a test.
pub(crate) fn checked(holds: bool, kind: Kind, at: u32, z: i32) -> Result<i32, Fault>
    ensures { result ≡ checked holds kind at z }
{
    if holds {
        Ok(z)
    } else {
        Err(Fault { kind, at })
    }
}

/// What an operator at a place gives.
fn placed(at: u32, outcome: Result<i32, Kind>) -> Result<i32, Fault>
    ensures { result ≡ placed at outcome }
{
    match outcome {
        Ok(z) => Ok(z),
        Err(kind) => Err(Fault { kind, at }),
    }
}
