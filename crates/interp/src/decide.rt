//! Which action is to be done next, and what it does (ISO 7185, 6.8 and 6.9).
ghost use Rattle.std.specs.Prelude.{◌≡◌, ℕ, suc, ◌^◌, ◌-◌, ◌<◌, ◌++◌, List, [], ◌∷◌, length, IfOk, IfSome, None, Ok, Some, true};
ghost use Rattle.px_base.specs.declared.kind.Kind.TheVariants as kind;
ghost use Rattle.arithmetic.specs.Numbers.{IsNumber};
ghost use Rattle.pas_program.specs.Checked.{numbers_in, scope_in, tables};
ghost use Rattle.pas_program.specs.Each.{each_access, each_expr};
ghost use Rattle.pas_program.specs.Tables.{is_visible};
ghost use Rattle.pas_program.specs.Typed.{copy_fits, hosted, is_of_host, is_target, reached, type_of_var};
ghost use Rattle.pas_program.specs.Types.{is_scalar};
ghost use Rattle.control_points.specs.Acts.{act_types_fit, each_act};
ghost use Rattle.control_points.specs.Actions.{comes_before, in_order, slot_at, stepped};
ghost use Rattle.control_points.specs.Actions as meaning;
ghost use Rattle.control_points.specs.Actions.{at_depth, top_depth};
ghost use Rattle.control_points.specs.Chart.{Chart, leaving, place_of_point};
ghost use Rattle.control_points.specs.Evaluation.{checked, value};
ghost use Rattle.control_points.specs.declared.point.PointKind.TheVariants as point;
ghost use Rattle.control_points.specs.Fits.{kind_at};
ghost use Rattle.control_points.specs.Flows.{chart_of};
ghost use Rattle.control_points.specs.Steps.{selector_of};
ghost use Rattle.control_points.specs.Storage.{whole};
ghost use Rattle.interp.specs.Deeds.{AreOnward, AreSafe, IsAsked, IsChange, IsDeedOf, IsOwn, IsWayBack, LandsAt, is_function, result_in, top_call};
ghost use Rattle.interp.specs.Meant.{InState, IsChangeOf, IsDecided, IsFirst, bytes_of, view_in};
ghost use Rattle.interp.specs.Machines.{AreItems, top_of, top_point, top_routine};

use crate::evaluate::checked;
use crate::machine::Machine;
use crate::transput::after_line;
use crate::write::{Output, Text};
use control_points::{Act, Edge, Fault, Item};
use pas_program::{Access, Actual, Expr};
use px_base::Kind;

/// A change of the storage.
#[derive(Clone, Copy, Debug)]
pub(crate) enum Change {
    Nothing,
    /// A scalar gets a number or becomes undefined.
    Set {
        address: usize,
        value: Option<i32>,
    },
    /// The control variable of a `for` and the hidden variable of its last value get theirs.
    Start {
        control: usize,
        first: i32,
        bound: usize,
        last: i32,
    },
    /// Scalars in a row get what others hold.
    Copy {
        to: usize,
        from: usize,
        count: usize,
    },
}

/// What an action does that is no call.
#[derive(Clone, Copy, Debug)]
pub(crate) struct Effect<'a> {
    /// Which activation goes on; those above it end.
    pub depth: usize,
    pub change: Change,
    /// The input that is left.
    pub items: &'a [Item],
    pub output: Option<Output<'a>>,
}

/// An action that is to be done.
#[derive(Clone, Copy, Debug)]
pub(crate) enum Deed<'a> {
    Lands(Effect<'a>),
    /// A call, whose actuals are still to be evaluated.
    Calls { routine: u32, actuals: &'a [Actual] },
}

/// What came of asking for an action: none, where it is not the one to be done.
pub(crate) type Decision<'a> = Result<Option<Deed<'a>>, Fault>;

impl<'a> Machine<'a> {
    /// The first edge whose action is to be done, and that action.
    pub(crate) fn decide(&self) -> Result<Option<(u32, Deed<'a>)>, Fault>
        ensures safe { IfOk result (λ o. IfSome o (λ d. IsDeedOf self.now.flow.now self.now.frames.items d.0 d.1)) }
        ensures exact { InState self.now (λ s. IsFirst self.now s (leaving self.now.flow.now.edges (top_point self.now.frames.items)) result) }
    {
        match self.way_back() {
            Some(number) => self.first(&[number]),
            None => self.first(self.edges_onward()),
        }
    }

    /// The edge by which the latest activation returns, where it stands at its exit and a call made it.
    fn way_back(&self) -> Option<u32>
        ensures leads { IfSome result (IsWayBack self.now.flow.now.edges self.now.frames.items) }
        ensures found { (call : ℕ) → top_call self.now.frames.items ≡ Some call → suc call < 2 ^ 32 → kind_at self.now.flow.now.points (top_point self.now.frames.items) ≡ Some point.Exit → result ≡ Some (suc call) }
    {
        let flow = self.flow;
        let top = self.top();
        let number = top.call?.checked_add(1)?;
        let edge = flow.edges().get(number as usize)?;
        if edge.from as usize == top.point {
            Some(number)
        } else {
            None
        }
    }

    /// The first of these edges, which leave the point of the latest activation, whose action is to be done, and that action.
    fn first(&self, numbers: &[u32]) -> Result<Option<(u32, Deed<'a>)>, Fault>
        requires { AreOnward self.now.flow.now.edges (top_point self.now.frames.items) numbers.now }
        ensures safe { IfOk result (λ o. IfSome o (λ d. IsDeedOf self.now.flow.now self.now.frames.items d.0 d.1)) }
        ensures exact { InState self.now (λ s. IsFirst self.now s numbers.now result) }
    {
        let flow = self.flow;
        for number in numbers {
            if let Some(deed) = self.deed_of(&flow.edges()[*number as usize])? {
                return Ok(Some((*number, deed)));
            }
        }
        Ok(None)
    }

    /// The edges that leave the point of the latest activation.
    fn edges_onward(&self) -> &'a [u32]
        ensures { result.now ≡ leaving self.now.flow.now.edges (top_point self.now.frames.items) }
    {
        let flow = self.flow;
        match flow.outgoing.get(self.top().point) {
            Some(edges) => edges.as_slice(),
            None => &[],
        }
    }

    /// The error where no constant of a `case` is the selector's value.
    pub(crate) fn no_case_label(&self) -> Fault
        ensures { (c : Chart) → c.edges ≡ self.now.flow.now.edges → result ≡ record { kind = kind.NoCaseLabel; at = selector_of c (leaving self.now.flow.now.edges (top_point self.now.frames.items)) } }
    {
        let flow = self.flow;
        let at = match self.edges_onward() {
            [] => 0,
            [edge, ..] => match &flow.edges()[*edge as usize].act {
                Act::Arm { of, .. } => of.first,
                _ => 0,
            },
        };
        Fault {
            kind: Kind::NoCaseLabel,
            at,
        }
    }

    /// What the action of an edge that leaves the point of the latest activation asks to be done.
    fn deed_of(&self, edge: &'a Edge) -> Decision<'a>
        requires numbers { each_act (numbers_in self.now.flow.now.program) edge.now.act ≡ true }
        requires types { act_types_fit (tables self.now.flow.now.program) edge.now.act ≡ true }
        requires scopes { each_act (scope_in self.now.flow.now.program (top_routine self.now.frames.items)) edge.now.act ≡ true }
        requires source { edge.now.from < length self.now.flow.now.points }
        ensures safe { IfOk result (λ o. IfSome o (IsAsked self.now.flow.now.program self.now.frames.items edge.now.act)) }
        ensures exact { (k : ℕ) → InState self.now (λ s. IsDecided self.now s k (meaning.effect_of (chart_of self.now.flow.now) s k (place_of_point self.now.flow.now.points edge.now.from) edge.now.act) result) }
    {
        match &edge.act {
            Act::Skip => self.does(Change::Nothing),
            Act::Assign { to, value } => self.assign(to, value),
            Act::Copy { to, from } => self.copy(to, from),
            Act::Call {
                routine,
                actuals,
                ..
            } => Ok(Some(Deed::Calls {
                routine: *routine,
                actuals: actuals.as_slice(),
            })),
            Act::Return { call } => self.return_from(*call, self.place_of_point(edge.from)),
            Act::Goto { routine } => self.goes_on(
                self.depth_of(*routine as usize),
                Change::Nothing,
            ),
            Act::Test { cond, wanted } => self.test(cond, *wanted),
            Act::Arm { of, consts } => self.arm(of, consts.as_slice()),
            Act::Enter {
                control,
                bound,
                first,
                down,
                last,
            } => self.enter(*control, *bound, first, *down, last),
            Act::Bypass {
                control,
                first,
                down,
                last,
                ..
            } => self.bypass(*control, first, *down, last),
            Act::Next {
                control,
                bound,
                down,
            } => self.next_turn(*control, *bound, *down, self.place_of_point(edge.from)),
            Act::Finish {
                control,
                bound,
                down,
            } => self.finish(*control, *bound, *down, self.place_of_point(edge.from)),
            Act::Read { to } => self.read(to),
            Act::DropLine => self.lands(after_line(self.items), None),
            Act::Write { item } => self.write(item),
            Act::EndLine => self.lands(
                self.items,
                Some(Output {
                    text: Text::Bytes(b"\n"),
                    width: None,
                }),
            ),
        }
    }

    fn place_of_point(&self, point: u32) -> u32
        requires { point < length self.now.flow.now.points }
        ensures { result ≡ place_of_point self.now.flow.now.points point }
    {
        self.flow.points()[point as usize].at
    }

    /// The activation at a depth goes on, with a change of the storage alone.
    fn goes_on(&self, depth: usize, change: Change) -> Decision<'a>
        requires depth { depth < length self.now.frames.items }
        requires change { IsChange self.now.flow.now.program self.now.frames.items change }
        ensures safe { AreSafe self.now.flow.now.program self.now.frames.items depth result }
        ensures exact { (k : ℕ) (changes : List meaning.Change) → IsChangeOf self.now.flow.now.program self.now.frames.items depth changes change → InState self.now (λ s. IsDecided self.now s k (meaning.goes_on (chart_of self.now.flow.now) s depth changes) result) }
    {
        Ok(Some(Deed::Lands(Effect {
            depth,
            change,
            items: self.items,
            output: None,
        })))
    }

    /// The latest activation goes on.
    fn does(&self, change: Change) -> Decision<'a>
        requires { IsChange self.now.flow.now.program self.now.frames.items change }
        ensures safe { AreSafe self.now.flow.now.program self.now.frames.items (top_of self.now.frames.items) result }
        ensures exact { (k : ℕ) (changes : List meaning.Change) → IsChangeOf self.now.flow.now.program self.now.frames.items (top_of self.now.frames.items) changes change → InState self.now (λ s. IsDecided self.now s k (meaning.does (chart_of self.now.flow.now) s changes) result) }
    {
        self.goes_on(self.frames.len() - 1, change)
    }

    /// The latest activation goes on, with input or output alone.
    pub(crate) fn lands(&self, items: &'a [Item], output: Option<Output<'a>>) -> Decision<'a>
        requires { AreItems items.now }
        ensures safe { AreSafe self.now.flow.now.program self.now.frames.items (top_of self.now.frames.items) result }
        ensures exact { (k : ℕ) → InState self.now (λ s. IsDecided self.now s k (Ok (Some (record { onward = at_depth (top_depth s.stack); changes = []; items = items.now; output = s.output ++ bytes_of output.entry }))) result) }
    {
        Ok(Some(Deed::Lands(Effect {
            depth: self.frames.len() - 1,
            change: Change::Nothing,
            items,
            output,
        })))
    }

    /// The subscripts on the left are evaluated first.
    fn assign(&self, to: &Access, value: &Expr) -> Decision<'a>
        requires to_numbers { each_access (numbers_in self.now.flow.now.program) to.now ≡ true }
        requires to_scopes { each_access (scope_in self.now.flow.now.program (top_routine self.now.frames.items)) to.now ≡ true }
        requires value_numbers { each_expr (numbers_in self.now.flow.now.program) value.now ≡ true }
        requires value_scopes { each_expr (scope_in self.now.flow.now.program (top_routine self.now.frames.items)) value.now ≡ true }
        requires value_fits { (hosted (tables self.now.flow.now.program) value.now).fits ≡ true }
        requires target { is_target (tables self.now.flow.now.program) (hosted (tables self.now.flow.now.program) value.now).boolean (reached (tables self.now.flow.now.program) to.now) ≡ true }
        ensures safe { AreSafe self.now.flow.now.program self.now.frames.items (top_of self.now.frames.items) result }
        ensures exact { (k : ℕ) → InState self.now (λ s. IsDecided self.now s k (meaning.assign (chart_of self.now.flow.now) s to.now value.now) result) }
    {
        let address = self.spot(to)?;
        let z = self.assigned(self.flow.program.type_of_access(to), value)?;
        self.does(Change::Set {
            address,
            value: Some(z),
        })
    }

    fn copy(&self, to: &Access, from: &Access) -> Decision<'a>
        requires to_numbers { each_access (numbers_in self.now.flow.now.program) to.now ≡ true }
        requires to_scopes { each_access (scope_in self.now.flow.now.program (top_routine self.now.frames.items)) to.now ≡ true }
        requires from_numbers { each_access (numbers_in self.now.flow.now.program) from.now ≡ true }
        requires from_scopes { each_access (scope_in self.now.flow.now.program (top_routine self.now.frames.items)) from.now ≡ true }
        requires fits { copy_fits (tables self.now.flow.now.program) (reached (tables self.now.flow.now.program) to.now) (reached (tables self.now.flow.now.program) from.now) ≡ true }
        ensures safe { AreSafe self.now.flow.now.program self.now.frames.items (top_of self.now.frames.items) result }
        ensures exact { (k : ℕ) → InState self.now (λ s. IsDecided self.now s k (meaning.copy (chart_of self.now.flow.now) s to.now from.now) result) }
    {
        let target = self.spot(to)?;
        let source = self.spot(from)?;
        let of_type = self.flow.program.type_of_access(to);
        self.does(Change::Copy {
            to: target,
            from: source,
            count: self.count_of(of_type),
        })
    }

    /// The result of a function goes to the slot of the activation that called it.
    fn return_from(&self, call: u32, at: u32) -> Decision<'a>
        ensures safe { IfOk result (λ o. IfSome o (λ d. LandsAt self.now.flow.now.program self.now.frames.items (top_of self.now.frames.items - 1) d × (top_call self.now.frames.items ≡ Some call))) }
        ensures exact { (k : ℕ) → InState self.now (λ s. IsDecided self.now s k (meaning.return_from (chart_of self.now.flow.now) s call at) result) }
    {
        let Some(made) = self.top().call else {
            return Ok(None);
        };
        if made != call {
            return Ok(None);
        }
        let depth = self.frames.len() - 2;
        match self.slot_of(call) {
            None => self.goes_on(depth, Change::Nothing),
            Some(slot) => {
                let z = self.result(at)?;
                let change = Change::Set {
                    address: self.scalar_of(depth, slot),
                    value: Some(z),
                };
                self.goes_on(depth, change)
            }
        }
    }

    /// The variable for the result of the call of an edge.
    fn slot_of(&self, call: u32) -> Option<u32>
        requires { call < length self.now.flow.now.edges }
        ensures { result ≡ slot_at self.now.flow.now.edges call }
    {
        match &self.flow.edges()[call as usize].act {
            Act::Call { slot, .. } => *slot,
            _ => None,
        }
    }

    /// The result of the latest activation, which is of a function. It must be defined at the exit.
    fn result(&self, at: u32) -> Result<i32, Fault>
        requires { is_function (tables self.now.flow.now.program) (top_routine self.now.frames.items) ≡ true }
        ensures number { IfOk result IsNumber }
        ensures exact { InState self.now (λ s. meaning.result_value at (s.store (whole (top_depth s.stack) (meaning.result_of (chart_of self.now.flow.now) s.stack))) ≡ result) }
    {
        let undefined = Fault {
            kind: Kind::NoResult,
            at,
        };
        match self.result_variable() {
            Some(result) => {
                let address = self.scalar_of(self.frames.len() - 1, result);
                match self.used(address, at) {
                    Ok(z) => Ok(z),
                    Err(_) => Err(undefined),
                }
            }
            None => Err(undefined),
        }
    }

    /// The variable for the result of the latest activation's routine.
    fn result_variable(&self) -> Option<u32>
        ensures result_variable { IfSome result (IsOwn self.now.flow.now.program self.now.frames.items (top_of self.now.frames.items)) }
        ensures is { result ≡ result_in (tables self.now.flow.now.program) (top_routine self.now.frames.items) }
    {
        let flow = self.flow;
        flow.program.routines.get(self.top().routine)?.result
    }

    fn test(&self, cond: &Expr, wanted: bool) -> Decision<'a>
        requires numbers { each_expr (numbers_in self.now.flow.now.program) cond.now ≡ true }
        requires types { is_of_host true (hosted (tables self.now.flow.now.program) cond.now) ≡ true }
        requires scopes { each_expr (scope_in self.now.flow.now.program (top_routine self.now.frames.items)) cond.now ≡ true }
        ensures safe { AreSafe self.now.flow.now.program self.now.frames.items (top_of self.now.frames.items) result }
        ensures exact { (k : ℕ) → InState self.now (λ s. IsDecided self.now s k (meaning.test (chart_of self.now.flow.now) s cond.now wanted) result) }
    {
        if self.value(cond)? == i32::from(wanted) {
            self.does(Change::Nothing)
        } else {
            Ok(None)
        }
    }

    fn arm(&self, of: &Expr, consts: &[i32]) -> Decision<'a>
        requires numbers { each_expr (numbers_in self.now.flow.now.program) of.now ≡ true }
        requires types { (hosted (tables self.now.flow.now.program) of.now).fits ≡ true }
        requires scopes { each_expr (scope_in self.now.flow.now.program (top_routine self.now.frames.items)) of.now ≡ true }
        ensures safe { AreSafe self.now.flow.now.program self.now.frames.items (top_of self.now.frames.items) result }
        ensures exact { (k : ℕ) → InState self.now (λ s. IsDecided self.now s k (meaning.arm (chart_of self.now.flow.now) s of.now consts.now) result) }
    {
        if consts.contains(&self.value(of)?) {
            self.does(Change::Nothing)
        } else {
            Ok(None)
        }
    }

    /// Both bounds are checked after both are evaluated, where there is a turn.
    fn enter(&self, control: u32, bound: u32, first: &Expr, down: bool, last: &Expr) -> Decision<'a>
        requires first_numbers { each_expr (numbers_in self.now.flow.now.program) first.now ≡ true }
        requires first_scopes { each_expr (scope_in self.now.flow.now.program (top_routine self.now.frames.items)) first.now ≡ true }
        requires first_fits { (hosted (tables self.now.flow.now.program) first.now).fits ≡ true }
        requires last_numbers { each_expr (numbers_in self.now.flow.now.program) last.now ≡ true }
        requires last_scopes { each_expr (scope_in self.now.flow.now.program (top_routine self.now.frames.items)) last.now ≡ true }
        requires last_fits { (hosted (tables self.now.flow.now.program) last.now).fits ≡ true }
        requires control { control < length self.now.flow.now.program.vars }
        requires control_seen { is_visible (tables self.now.flow.now.program) (top_routine self.now.frames.items) control ≡ true }
        requires scalar { is_scalar (type_of_var (tables self.now.flow.now.program) control) ≡ true }
        requires bound { bound < length self.now.flow.now.program.vars }
        requires bound_seen { is_visible (tables self.now.flow.now.program) (top_routine self.now.frames.items) bound ≡ true }
        requires bound_scalar { is_scalar (type_of_var (tables self.now.flow.now.program) bound) ≡ true }
        ensures safe { AreSafe self.now.flow.now.program self.now.frames.items (top_of self.now.frames.items) result }
        ensures exact { (k : ℕ) → InState self.now (λ s. IsDecided self.now s k (meaning.enter (chart_of self.now.flow.now) s control bound first.now down last.now) result) }
    {
        let x = self.value(first)?;
        let y = self.value(last)?;
        if !is_in_order(down, x, y) {
            return Ok(None);
        }
        let of_type = self.flow.program.var_def(control).of_type;
        let kind = Kind::ValueOutOfRange;
        let x = checked(self.is_value_of(of_type, x), kind, first.first, x)?;
        let y = checked(self.is_value_of(of_type, y), kind, last.first, y)?;
        self.does(Change::Start {
            control: self.address_of(control),
            first: x,
            bound: self.address_of(bound),
            last: y,
        })
    }

    fn bypass(&self, control: u32, first: &Expr, down: bool, last: &Expr) -> Decision<'a>
        requires first_numbers { each_expr (numbers_in self.now.flow.now.program) first.now ≡ true }
        requires first_scopes { each_expr (scope_in self.now.flow.now.program (top_routine self.now.frames.items)) first.now ≡ true }
        requires first_fits { (hosted (tables self.now.flow.now.program) first.now).fits ≡ true }
        requires last_numbers { each_expr (numbers_in self.now.flow.now.program) last.now ≡ true }
        requires last_scopes { each_expr (scope_in self.now.flow.now.program (top_routine self.now.frames.items)) last.now ≡ true }
        requires last_fits { (hosted (tables self.now.flow.now.program) last.now).fits ≡ true }
        requires control { control < length self.now.flow.now.program.vars }
        requires control_seen { is_visible (tables self.now.flow.now.program) (top_routine self.now.frames.items) control ≡ true }
        requires scalar { is_scalar (type_of_var (tables self.now.flow.now.program) control) ≡ true }
        ensures safe { AreSafe self.now.flow.now.program self.now.frames.items (top_of self.now.frames.items) result }
        ensures exact { (k : ℕ) → InState self.now (λ s. IsDecided self.now s k (meaning.bypass (chart_of self.now.flow.now) s control first.now down last.now) result) }
    {
        let x = self.value(first)?;
        let y = self.value(last)?;
        if is_in_order(down, x, y) {
            return Ok(None);
        }
        self.undefine(control)
    }

    fn next_turn(&self, control: u32, bound: u32, down: bool, at: u32) -> Decision<'a>
        requires control { control < length self.now.flow.now.program.vars }
        requires control_seen { is_visible (tables self.now.flow.now.program) (top_routine self.now.frames.items) control ≡ true }
        requires scalar { is_scalar (type_of_var (tables self.now.flow.now.program) control) ≡ true }
        requires bound { bound < length self.now.flow.now.program.vars }
        requires bound_seen { is_visible (tables self.now.flow.now.program) (top_routine self.now.frames.items) bound ≡ true }
        requires bound_scalar { is_scalar (type_of_var (tables self.now.flow.now.program) bound) ≡ true }
        ensures safe { AreSafe self.now.flow.now.program self.now.frames.items (top_of self.now.frames.items) result }
        ensures exact { (k : ℕ) → InState self.now (λ s. IsDecided self.now s k (meaning.next_turn (chart_of self.now.flow.now) s control bound down at) result) }
    {
        let address = self.address_of(control);
        let x = self.used(address, at)?;
        let y = self.used(self.address_of(bound), at)?;
        if !comes_before(down, x, y) {
            return Ok(None);
        }
        self.does(Change::Set {
            address,
            value: Some(next_value(down, x, y)),
        })
    }

    /// Afterwards the control variable is undefined.
    fn finish(&self, control: u32, bound: u32, down: bool, at: u32) -> Decision<'a>
        requires control { control < length self.now.flow.now.program.vars }
        requires control_seen { is_visible (tables self.now.flow.now.program) (top_routine self.now.frames.items) control ≡ true }
        requires scalar { is_scalar (type_of_var (tables self.now.flow.now.program) control) ≡ true }
        requires bound { bound < length self.now.flow.now.program.vars }
        requires bound_seen { is_visible (tables self.now.flow.now.program) (top_routine self.now.frames.items) bound ≡ true }
        requires bound_scalar { is_scalar (type_of_var (tables self.now.flow.now.program) bound) ≡ true }
        ensures safe { AreSafe self.now.flow.now.program self.now.frames.items (top_of self.now.frames.items) result }
        ensures exact { (k : ℕ) → InState self.now (λ s. IsDecided self.now s k (meaning.finish (chart_of self.now.flow.now) s control bound down at) result) }
    {
        let x = self.used(self.address_of(control), at)?;
        let y = self.used(self.address_of(bound), at)?;
        if comes_before(down, x, y) {
            return Ok(None);
        }
        self.undefine(control)
    }

    fn undefine(&self, var: u32) -> Decision<'a>
        requires in_range { var < length self.now.flow.now.program.vars }
        requires seen { is_visible (tables self.now.flow.now.program) (top_routine self.now.frames.items) var ≡ true }
        requires scalar { is_scalar (type_of_var (tables self.now.flow.now.program) var) ≡ true }
        ensures safe { AreSafe self.now.flow.now.program self.now.frames.items (top_of self.now.frames.items) result }
        ensures exact { (k : ℕ) → InState self.now (λ s. IsDecided self.now s k (meaning.does (chart_of self.now.flow.now) s (meaning.sets ((view_in self.now s).place var) None ∷ [])) result) }
    {
        self.does(Change::Set {
            address: self.address_of(var),
            value: None,
        })
    }
}

/// Whether a `for` from x to y has a turn.
fn is_in_order(down: bool, x: i32, y: i32) -> bool
    ensures { result ≡ in_order down x y }
{
    if down { y <= x } else { x <= y }
}

/// Whether there is a turn after that with the value x.
fn comes_before(down: bool, x: i32, y: i32) -> bool
    ensures { result ≡ comes_before down x y }
{
    if down { y < x } else { x < y }
}

/// The value of the control variable x in the next turn of a `for` to y, which there is.
fn next_value(down: bool, x: i32, y: i32) -> i32
    requires number { IsNumber x }
    requires last { IsNumber y }
    requires before { comes_before down x y ≡ true }
    ensures value { result ≡ stepped down x }
    ensures number { IsNumber result }
{
    // `y` is beyond `x`, so that no step leaves the language's integers.
    let _last = y;
    if down { x - 1 } else { x + 1 }
}
