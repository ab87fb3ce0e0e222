//! Reading and writing (ISO 7185, 6.9).
ghost use Rattle.std.specs.Prelude.{◌≡◌, ℕ, ◌<◌, false, length, pos, slice_get, None, Ok, Some, true};
ghost use Rattle.px_base.specs.declared.kind.Kind.TheVariants as kind;
ghost use Rattle.pas_program.specs.declared.expr.Actual.TheViews.{out-Expr};
ghost use Rattle.pas_program.specs.declared.statement.WriteValue.TheVariants as written;
ghost use Rattle.pas_program.specs.Checked.{numbers_in, scope_in, tables};
ghost use Rattle.pas_program.specs.Each.{each_access, each_expr, each_item};
ghost use Rattle.pas_program.specs.Typed.{hosted, hosted_by, is_target, item_fits, reached, unary_gives};
ghost use Rattle.control_points.specs.Actions as meaning;
ghost use Rattle.control_points.specs.Evaluation.{checked, then_with, value};
ghost use Rattle.control_points.specs.Flows.{chart_of};
ghost use Rattle.control_points.specs.Output.{is_width};
ghost use Rattle.control_points.specs.Input as input;
ghost use Rattle.std.specs.Option.{option_map};
ghost use Rattle.interp.specs.Deeds.{AreSafe};
ghost use Rattle.interp.specs.Meant.{InState, IsDecided, text_of, view_in};
ghost use Rattle.interp.specs.Machines.{top_of, top_routine};

use crate::decide::{Change, Decision, Deed, Effect};
use crate::evaluate::checked;
use crate::machine::Machine;
use crate::write::{Output, Text};
use control_points::{Fault, Item};
use pas_program::{Access, Expr, ExprForm, TypeDef, WriteItem, WriteValue};
use px_base::{BinOp, Kind, UnOp};

impl<'a> Machine<'a> {
    /// A number from the input.
    pub(crate) fn read(&self, to: &Access) -> Decision<'a>
        requires numbers { each_access (numbers_in self.now.flow.now.program) to.now ≡ true }
        requires target { is_target (tables self.now.flow.now.program) false (reached (tables self.now.flow.now.program) to.now) ≡ true }
        requires scopes { each_access (scope_in self.now.flow.now.program (top_routine self.now.frames.items)) to.now ≡ true }
        ensures safe { AreSafe self.now.flow.now.program self.now.frames.items (top_of self.now.frames.items) result }
        ensures exact { (k : ℕ) → InState self.now (λ s. IsDecided self.now s k (meaning.read (chart_of self.now.flow.now) s to.now) result) }
    {
        let address = self.spot(to)?;
        let Some((number, rest)) = next_number(self.items) else {
            return Err(Fault {
                kind: Kind::NoNumber,
                at: to.at,
            });
        };
        let of_type = self.flow.program.type_of_access(to);
        let fits = self.is_value_of(of_type, number);
        let z = checked(fits, Kind::ValueOutOfRange, to.at, number)?;
        Ok(Some(Deed::Lands(Effect {
            depth: self.frames.len() - 1,
            change: Change::Set {
                address,
                value: Some(z),
            },
            items: rest,
            output: None,
        })))
    }

    /// A value or a string with its width; the value comes before the width.
    pub(crate) fn write(&self, item: &'a WriteItem) -> Decision<'a>
        requires numbers { each_item (numbers_in self.now.flow.now.program) item.now ≡ true }
        requires types { item_fits (tables self.now.flow.now.program) item.now ≡ true }
        requires scopes { each_item (scope_in self.now.flow.now.program (top_routine self.now.frames.items)) item.now ≡ true }
        ensures safe { AreSafe self.now.flow.now.program self.now.frames.items (top_of self.now.frames.items) result }
        ensures exact { (k : ℕ) → InState self.now (λ s. IsDecided self.now s k (meaning.write (chart_of self.now.flow.now) s item.now) result) }
    {
        let text = match &item.value {
            WriteValue::Value(e) => self.text_of(e)?,
            WriteValue::Text { bytes, .. } => Text::Bytes(bytes.as_slice()),
        };
        let width = match &item.width {
            Some(width) => Some(self.width(width)?),
            None => None,
        };
        self.lands(self.items, Some(Output { text, width }))
    }

    /// What is written of an expression.
    fn text_of(&self, e: &Expr) -> Result<Text<'a>, Fault>
        requires numbers { each_expr (numbers_in self.now.flow.now.program) e.now ≡ true }
        requires types { (hosted (tables self.now.flow.now.program) e.now).fits ≡ true }
        requires scopes { each_expr (scope_in self.now.flow.now.program (top_routine self.now.frames.items)) e.now ≡ true }
        ensures exact { InState self.now (λ s. meaning.written_value (chart_of self.now.flow.now) s (written.Value e.now) ≡ then_with result (λ t. Ok (text_of t))) }
    {
        let z = self.value(e)?;
        if self.is_boolean(e) {
            Ok(Text::Truth(z != 0))
        } else {
            Ok(Text::Number(z))
        }
    }

    /// Whether an expression is a Boolean; else it is an integer.
    fn is_boolean(&self, e: &Expr) -> bool
        requires numbers { each_expr (numbers_in self.now.flow.now.program) e.now ≡ true }
        requires types { (hosted (tables self.now.flow.now.program) e.now).fits ≡ true }
        ensures { result ≡ (hosted (tables self.now.flow.now.program) e.now).boolean }
    {
        let program = &self.flow.program;
        match &e.form {
            ExprForm::Const { boolean, .. } => *boolean,
            ExprForm::Value(access) => self.has_booleans(program.type_of_access(access)),
            ExprForm::Unary { op, .. } => gives_boolean(*op),
            ExprForm::Binary { op, .. } => !matches!(
                op,
                BinOp::Add | BinOp::Sub | BinOp::Mul | BinOp::Div | BinOp::Mod
            ),
            ExprForm::Call { slot, .. } => self.has_booleans(program.var_def(*slot).of_type),
        }
    }

    /// Whether the values of a scalar type are Booleans.
    fn has_booleans(&self, of_type: u32) -> bool
        requires { of_type < length self.now.flow.now.program.types }
        ensures { result ≡ (hosted_by (slice_get self.now.flow.now.program.types of_type)).boolean }
    {
        match self.flow.program.type_def(of_type) {
            TypeDef::Scalar { boolean, .. } => boolean,
            TypeDef::Array { .. } => false,
        }
    }

    fn width(&self, width: &Expr) -> Result<u16, Fault>
        requires numbers { each_expr (numbers_in self.now.flow.now.program) width.now ≡ true }
        requires types { (hosted (tables self.now.flow.now.program) width.now).fits ≡ true }
        requires scopes { each_expr (scope_in self.now.flow.now.program (top_routine self.now.frames.items)) width.now ≡ true }
        ensures exact { InState self.now (λ s. then_with (value (view_in self.now s) width.now) (λ z. checked (is_width z) kind.WidthOutOfRange (out-Expr width.now).first z) ≡ then_with result (λ n. Ok (pos n))) }
    {
        let z = self.value(width)?;
        let z = checked(1 <= z && z <= 10000, Kind::WidthOutOfRange, width.first, z)?;
        Ok(z.unsigned_abs() as u16)
    }
}

/// Whether the result of the operator is a Boolean.
fn gives_boolean(op: UnOp) -> bool
    ensures { result ≡ unary_gives op }
{
    matches!(op, UnOp::Not | UnOp::Odd | UnOp::SuccBool | UnOp::PredBool)
}

/// The next number of the input, and the items after it. Line ends before it are dropped.
fn next_number(items: &[Item]) -> Option<(i32, &[Item])>
    ensures { option_map (λ t. record { number = t.0; rest = t.1.now }) result ≡ input.next_number items.now }
{
    let mut rest = items;
    while let Some((item, others)) = rest.split_first() {
        match *item {
            Item::Number(z) => return Some((z, others)),
            Item::Junk => return None,
            Item::LineEnd => rest = others,
        }
    }
    None
}

/// The items after the next line end.
pub(crate) fn after_line(items: &[Item]) -> &[Item]
    ensures { result.now ≡ input.after_line items.now }
{
    let mut rest = items;
    while let Some((item, others)) = rest.split_first() {
        rest = others;
        if *item == Item::LineEnd {
            break;
        }
    }
    rest
}
