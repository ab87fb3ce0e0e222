//! Where an expression stands, and what an environment is still where expressions are wanted.
ghost use Rattle.std.specs.Prelude.{◌≡◌, ◌<◌, length, true, if◌then◌else◌};
ghost use Rattle.alias_class.specs.Outlines.{outline_of};
ghost use Rattle.control_points.specs.Checking.{formals_of};
ghost use Rattle.control_points.specs.Evaluation.{access_type, var_type};
ghost use Rattle.control_points.specs.Judgements.{result_of};
ghost use Rattle.environment.specs.Environments.{cell_count};
ghost use Rattle.interval.specs.Intervals.{booleans, numbers};
ghost use Rattle.pas_program.specs.Checked.{tables};
ghost use Rattle.pas_program.specs.Each.{each_access, each_expr};
ghost use Rattle.pas_program.specs.Typed.{hosted, reached};
ghost use Rattle.abstract_expr.specs.Expressions.{range_of, target, truth_of, value_in};
ghost use Rattle.abstract_expr.specs.Standing.{cells_in, scope_in, seen_in};

use crate::names::Names;
use crate::tables::{range_of, type_at};
use alias_class::{Bind, Classes};
use control_points::{Flow, is_boolean};
use environment::Env;
use interval::{Itv, Val};
use pas_program::{Access, Expr, Program};

/// The numbers that stand for the truths.
pub(crate) fn truth(holds: bool) -> Itv
    ensures { result ≡ truth_of holds }
{
    if holds {
        Itv::between(1, 1)
    } else {
        Itv::between(0, 0)
    }
}

/// A class of activations, in which expressions of its routine stand.
#[derive(Clone, Copy)]
pub struct Scope<'a> {
    /// The program with its points.
    pub flow: &'a Flow,
    /// The class of the flow's unfolding.
    pub names: Names<'a>,
    pub ghost of_program: { names.classes.now.outline ≡ outline_of flow.now },
}

impl<'a> Scope<'a> {
    ghost use Rattle.abstract_expr.specs.Scopes.{cells_of, program_of, scope_of, seen_of};

    /// The scope of a class of the flow's unfolding.
    pub fn over(flow: &'a Flow, classes: &'a Classes, class: u32) -> Scope<'a>
        requires class { class < length classes.now.classes }
        requires outline { classes.now.outline ≡ outline_of flow.now }
        ensures scope { scope_of result ≡ scope_in flow.now classes.now class }
        ensures program { program_of result ≡ flow.now.program }
        ensures cells { cells_of result ≡ cells_in classes.now class }
        ensures seen { seen_of result ≡ seen_in classes.now class }
    {
        Scope {
            flow,
            names: Names { classes, class },
        }
    }

    /// The program whose expressions stand here.
    pub(crate) fn program(&self) -> &'a Program
        ensures { result.now ≡ program_of self.now }
    {
        self.flow.program()
    }

    /// What the name of a variable stands for.
    pub fn bind(&self, var: u32) -> Bind
        requires { (seen_of self.now).variable var ≡ true }
        ensures value { result ≡ (scope_of self.now).bind var }
        ensures in_range { result.cell < cells_of self.now }
    {
        self.names.bind(var)
    }

    /// What an access stands for: with subscripts, a part.
    pub fn target(&self, access: &Access) -> Bind
        requires { each_access (seen_of self.now) access.now ≡ true }
        ensures value { result ≡ target (scope_of self.now).bind access.now }
        ensures in_range { result.cell < cells_of self.now }
    {
        self.names.target(access)
    }

    /// The interval of a value, which is empty where the environment is not reached. The time is linear in the expression.
    pub fn value(&self, env: &Env, e: &Expr) -> Itv
        requires cells { cell_count env.now.env ≡ cells_of self.now }
        requires seen { each_expr (seen_of self.now) e.now ≡ true }
        ensures { result ≡ value_in (scope_of self.now).bind env.now.env e.now }
    {
        if env.reachable() {
            self.names.value(env, e)
        } else {
            Itv::EMPTY
        }
    }

    /// The numbers of a scalar type; for an array type, all numbers.
    pub fn range_of(&self, of_type: u32) -> Itv
        requires { of_type < length (program_of self.now).types }
        ensures { result ≡ range_of ((scope_of self.now).tables.type_at of_type) }
    {
        range_of(type_at(self.program(), of_type))
    }

    /// The type of a variable.
    pub fn var_type(&self, var: u32) -> u32
        requires { var < length (program_of self.now).vars }
        ensures value { result ≡ var_type (scope_of self.now).tables var }
        ensures in_range { result < length (program_of self.now).types }
    {
        self.program().var_def(var).of_type
    }

    /// The type of what an access names. The time is linear in the number of subscripts.
    pub fn access_type(&self, access: &Access) -> u32
        requires { (reached (tables (program_of self.now)) access.now).fits ≡ true }
        ensures value { result ≡ access_type (scope_of self.now).tables access.now }
        ensures in_range { result < length (program_of self.now).types }
    {
        self.program().type_of_access(access)
    }

    /// The numbers of an expression's host.
    pub fn host_of(&self, e: &Expr) -> Itv
        ensures { result ≡ if (hosted (scope_of self.now).tables e.now).boolean then booleans else numbers }
    {
        if is_boolean(self.program(), e) {
            Itv::BOOLEANS
        } else {
            Itv::NUMBERS
        }
    }

    /// The formals of a routine.
    pub fn formals(&self, routine: u32) -> &'a [u32]
        requires { routine < length (program_of self.now).routines }
        ensures { result.now ≡ formals_of ((scope_of self.now).tables.head_at routine) }
    {
        self.program().routine(routine).formals.as_slice()
    }

    /// The variable for the result of a function.
    pub fn result(&self, routine: u32) -> Option<u32>
        requires { routine < length (program_of self.now).routines }
        ensures { result ≡ result_of (scope_of self.now).tables routine }
    {
        self.program().routine(routine).result
    }
}
