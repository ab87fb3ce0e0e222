//! Expressions (ISO 7185, 6.7).

ghost use Rattle.std.specs.Prelude.{◌≡◌, true, false, IfErr, IfOk, OnOk, Some, map};
ghost use Rattle.std.specs.Option.{option_map};
ghost use Rattle.pas_check.specs.Expr as spec;
ghost use Rattle.pas_check.specs.Expr.{actual_writes, all_passed_writes, call_writes, formals_at, found, given, meant, scalar, type_of};
ghost use Rattle.pas_check.specs.Forms as forms;
ghost use Rattle.pas_check.specs.Forms.{alone_form, binary_form, call_form, constant_form, expr_form, function_form, given_form, named_form, operand_form, required_form, required_of_form, scalar_form, scalar_of, signed_form, unary_form, value_made};
ghost use Rattle.pas_check.specs.Outcome.{Gives, IsBroken, IsMemory};
ghost use Rattle.pas_program.specs.declared.expr.ExprForm.TheVariants as form;
ghost use Rattle.pas_check.specs.Sight.{host_at, sight};
ghost use Rattle.pas_check.specs.Written.{writes_in_turn, written};

use crate::access::Reached;
use crate::constant::number;
use crate::fault::{Fault, Rule};
use crate::meaning::{Meaning, Required};
use crate::seen::{Made, Seen};
use pas_program::{Access, Actual, Expr, ExprForm, VarKind};
use pas_tree::{Sign, span_of};
use px_base::{BinOp, Span, UnOp};
use sqlite_items::{Boxed, Items};

/// An expression with its type.
#[derive(Drop)]
pub enum Typed {
    /// A scalar with its host.
    Scalar { expr: Expr, boolean: bool },
    /// A whole array.
    Array { access: Access, of_type: u32 },
}

impl Typed {
    /// A constant.
    fn constant(first: u32, boolean: bool, value: i32) -> Typed
        ensures of_type { type_of result ≡ scalar boolean }
        ensures form { result ≡ constant_form first boolean value }
    {
        Typed::Scalar {
            expr: Expr {
                first,
                form: ExprForm::Const { boolean, value },
            },
            boolean,
        }
    }

    /// The same with its first token at `first`.
    fn begun_at(self, first: u32) -> Typed
        ensures of_type { type_of result ≡ type_of self }
        ensures form { result ≡ forms.begun_at first self }
    {
        match self {
            Typed::Scalar { expr, boolean } => {
                let Expr {
                    first: _inner,
                    form,
                } = expr;
                Typed::Scalar {
                    expr: Expr { first, form },
                    boolean,
                }
            }
            Typed::Array { access, of_type } => Typed::Array { access, of_type },
        }
    }
}

/// The host of the operands of an operator whose operands are not just alike.
fn operand_host(op: BinOp) -> Option<bool>
    ensures { result ≡ spec.operand_host op }
{
    match op {
        BinOp::Add | BinOp::Sub | BinOp::Mul | BinOp::Div | BinOp::Mod => Some(false),
        BinOp::And | BinOp::Or => Some(true),
        _ => None,
    }
}

/// Whether the result of an operator is Boolean.
fn gives_truth(op: BinOp) -> bool
    ensures { result ≡ spec.gives_truth op }
{
    !matches!(
        op,
        BinOp::Add | BinOp::Sub | BinOp::Mul | BinOp::Div | BinOp::Mod
    )
}

/// The operator of a required function at an operand of this host, and whether its result is Boolean; `None` where the
/// operand has the wrong host.
fn required_operator(function: Required, boolean: bool) -> Option<(UnOp, bool)>
    ensures truth { option_map (λ p. p.1) result ≡ spec.required_gives function boolean }
    ensures operator { result ≡ forms.required_operator function boolean }
{
    match (function, boolean) {
        (Required::Abs, false) => Some((UnOp::Abs, false)),
        (Required::Sqr, false) => Some((UnOp::Sqr, false)),
        (Required::Odd, false) => Some((UnOp::Odd, true)),
        (Required::Succ, false) => Some((UnOp::SuccInt, false)),
        (Required::Succ, true) => Some((UnOp::SuccBool, true)),
        (Required::Pred, false) => Some((UnOp::PredInt, false)),
        (Required::Pred, true) => Some((UnOp::PredBool, true)),
        (Required::Ord, _) => Some((UnOp::OrdOf, false)),
        _ => None,
    }
}

impl<'t> Seen<'t> {
    /// An expression with its type.
    #[tactic(auto, unfolding(crate::specs::Expr::found, crate::specs::Expr::access_found, crate::specs::Expr::given, crate::specs::Forms::expr_form, crate::specs::Forms::access_form, crate::specs::Forms::given_form))]
    #[cycle(expr)]
    pub fn expr(&self, made: &mut Made, e: &pas_tree::Expr) -> Result<Typed, Fault>
        ensures value { Gives type_of (found (sight self.now) e.now).value result }
        ensures writes { OnOk result (written made.new ≡ (found (sight self.now) e.now).writes (written made.old)) }
        ensures form { IfOk result (λ r. (expr_form (sight self.now) e.now).value made.old.built ≡ Some (r, made.new.built)) }
    {
        match e {
            pas_tree::Expr::Number { value, span } => {
                Ok(Typed::constant(span.start, false, number(*value)))
            }
            pas_tree::Expr::Name { name, actuals, .. } => {
                self.named(made, *name, actuals.as_slice())
            }
            pas_tree::Expr::Indexed { access, .. } => {
                let reached = self.access(made, access)?;
                Ok(self.value_of(reached))
            }
            pas_tree::Expr::Paren { inner, span } => {
                Ok(self.expr(made, inner.get())?.begun_at(span.start))
            }
            pas_tree::Expr::Not { inner, span } => {
                let operand = self.of_host(made, inner.get(), true)?;
                self.unary(UnOp::Not, operand, span.start, true)
            }
            pas_tree::Expr::Signed { sign, inner, span } => {
                let operand = self.of_host(made, inner.get(), false)?;
                self.signed(*sign, operand, span.start)
            }
            pas_tree::Expr::Binary {
                op,
                left,
                right,
                at,
                ..
            } => {
                let (a, host) = self.left_operand(made, *op, left.get())?;
                let b = self.of_host(made, right.get(), host)?;
                self.binary(*op, a, b, at.start)
            }
        }
    }

    /// A scalar expression with its host.
    #[tactic(auto, unfolding(crate::specs::Expr::scalar_of, crate::specs::Forms::scalar_form))]
    #[cycle(expr)]
    pub fn scalar(&self, made: &mut Made, e: &pas_tree::Expr) -> Result<(Expr, bool), Fault>
        ensures value { Gives (λ r. r.1) (spec.scalar_of (found (sight self.now) e.now)) result }
        ensures writes { OnOk result (written made.new ≡ (found (sight self.now) e.now).writes (written made.old)) }
        ensures form { IfOk result (λ r. scalar_form (expr_form (sight self.now) e.now) made.old.built ≡ Some (r, made.new.built)) }
    {
        match self.expr(made, e)? {
            Typed::Scalar { expr, boolean } => Ok((expr, boolean)),
            Typed::Array { .. } => Err(Rule::Type.broken(self.first(e))),
        }
    }

    /// An expression of this host.
    #[tactic(auto, unfolding(crate::specs::Expr::of_host, crate::specs::Forms::operand_form))]
    #[cycle(expr)]
    pub fn of_host(&self, made: &mut Made, e: &pas_tree::Expr, boolean: bool) -> Result<Expr, Fault>
        ensures value { Gives (λ x. tt) (spec.of_host boolean (found (sight self.now) e.now)) result }
        ensures writes { OnOk result (written made.new ≡ (found (sight self.now) e.now).writes (written made.old)) }
        ensures form { IfOk result (λ r. operand_form (expr_form (sight self.now) e.now) made.old.built ≡ Some (r, made.new.built)) }
    {
        let (expr, host) = self.scalar(made, e)?;
        if host != boolean {
            return Err(Rule::Type.broken(self.first(e)));
        }
        Ok(expr)
    }

    /// The place of the first token of an expression.
    pub fn first(&self, e: &pas_tree::Expr) -> u32
        ensures { result ≡ (found (sight self.now) e.now).first }
    {
        span_of(e).start
    }

    /// The fault that a rule is broken at the first token of an expression, or a fault with a lower code that stands
    /// there too.
    #[tactic(auto, unfolding(crate::specs::Expr::lower_first))]
    #[cycle(expr)]
    pub fn first_fault(&self, made: &mut Made, e: &pas_tree::Expr, rule: Rule) -> Fault
        ensures value { IsBroken result → result ≡ spec.lower_first (found (sight self.now) e.now).first rule (found (sight self.now) e.now).value }
    {
        let first = self.first(e);
        match self.expr(made, e) {
            Ok(_) => rule.broken(first),
            Err(Fault::Memory(error)) => Fault::Memory(error),
            Err(Fault::Broken { rule: lower, at }) => {
                if at == first && lower.code() < rule.code() {
                    lower.broken(at)
                } else {
                    rule.broken(first)
                }
            }
        }
    }

    /// The value of a variable.
    #[tactic(auto, unfolding(crate::specs::Expr::value_at, crate::specs::Sight::sight, crate::specs::Forms::value_made))]
    pub fn value_of(&self, reached: Reached) -> Typed
        ensures of_type { type_of result ≡ spec.value_at (sight self.now) reached.of_type }
        ensures form { result ≡ value_made (sight self.now) reached }
    {
        let Reached {
            access,
            of_type,
            whole: _whole,
        } = reached;
        match self.types.host(of_type) {
            Some(boolean) => Typed::Scalar {
                expr: Expr {
                    first: access.at,
                    form: ExprForm::Value(access),
                },
                boolean,
            },
            None => Typed::Array { access, of_type },
        }
    }

    fn unary(&self, op: UnOp, operand: Expr, at: u32, boolean: bool) -> Result<Typed, Fault>
        ensures of_type { IfOk result (λ t. type_of t ≡ scalar boolean) }
        ensures memory { IfErr result IsMemory }
        ensures form { IfOk result (λ t. t ≡ unary_form op operand at boolean) }
    {
        let of = Boxed::new(self.alloc, operand).map_err(Fault::Memory)?;
        Ok(Typed::Scalar {
            expr: Expr {
                first: at,
                form: ExprForm::Unary { op, of, at },
            },
            boolean,
        })
    }

    fn signed(&self, sign: Sign, operand: Expr, at: u32) -> Result<Typed, Fault>
        ensures of_type { IfOk result (λ t. type_of t ≡ scalar false) }
        ensures memory { IfErr result IsMemory }
        ensures form { IfOk result (λ t. t ≡ signed_form sign operand at) }
    {
        match sign {
            Sign::Minus => self.unary(UnOp::Neg, operand, at, false),
            Sign::Plus => Ok(Typed::Scalar {
                expr: operand,
                boolean: false,
            }
            .begun_at(at)),
        }
    }

    /// The left operand of an operator, and the host that the right one must have: the operands of a relation have one
    /// host, and a difference is at the right one.
    #[tactic(auto, unfolding(crate::specs::Expr::left_operand, crate::specs::Forms::operand_form))]
    #[cycle(expr)]
    fn left_operand(
        &self,
        made: &mut Made,
        op: BinOp,
        left: &pas_tree::Expr,
    ) -> Result<(Expr, bool), Fault>
        ensures value { Gives (λ r. r.1) (spec.left_operand op (found (sight self.now) left.now)) result }
        ensures writes { OnOk result (written made.new ≡ (found (sight self.now) left.now).writes (written made.old)) }
        ensures form { IfOk result (λ r. operand_form (expr_form (sight self.now) left.now) made.old.built ≡ Some (r.0, made.new.built)) }
    {
        match operand_host(op) {
            Some(host) => Ok((self.of_host(made, left, host)?, host)),
            None => self.scalar(made, left),
        }
    }

    /// An operator with its operands.
    fn binary(&self, op: BinOp, left: Expr, right: Expr, at: u32) -> Result<Typed, Fault>
        ensures of_type { IfOk result (λ t. type_of t ≡ scalar (spec.gives_truth op)) }
        ensures memory { IfErr result IsMemory }
        ensures form { IfOk result (λ t. t ≡ binary_form op left right at) }
    {
        let first = left.first;
        let left = Boxed::new(self.alloc, left).map_err(Fault::Memory)?;
        let right = Boxed::new(self.alloc, right).map_err(Fault::Memory)?;
        Ok(Typed::Scalar {
            expr: Expr {
                first,
                form: ExprForm::Binary {
                    op,
                    left,
                    right,
                    at,
                },
            },
            boolean: gives_truth(op),
        })
    }

    /// A constant, a variable without subscripts, or a call.
    #[tactic(auto, unfolding(crate::specs::Expr::named, crate::specs::Forms::named_form))]
    #[cycle(expr)]
    fn named(
        &self,
        made: &mut Made,
        name: Span,
        actuals: &[pas_tree::Actual],
    ) -> Result<Typed, Fault>
        ensures value { Gives type_of (spec.named (sight self.now) name (map (given (sight self.now)) actuals.now)) result }
        ensures writes { OnOk result (written made.new ≡ call_writes (sight self.now) (meant (sight self.now) name) (map (given (sight self.now)) actuals.now) (written made.old)) }
        ensures form { IfOk result (λ r. named_form (sight self.now) name (map (given_form (sight self.now)) actuals.now) made.old.built ≡ Some (r, made.new.built)) }
    {
        let meaning = self.meaning(made, name)?;
        if actuals.is_empty() {
            if let Some(typed) = self.named_alone(meaning, name) {
                return Ok(typed);
            }
        }
        self.named_call(made, meaning, name, actuals)
    }

    /// A constant or a variable.
    #[tactic(auto, unfolding(crate::specs::Expr::alone_by, crate::specs::Forms::alone_form))]
    fn named_alone(&self, meaning: Meaning, name: Span) -> Option<Typed>
        ensures of_type { option_map type_of result ≡ spec.alone_by (sight self.now) meaning }
        ensures form { result ≡ alone_form (sight self.now) meaning name.start }
    {
        match meaning {
            Meaning::Constant(value) => {
                Some(Typed::constant(name.start, value.boolean, value.value))
            }
            Meaning::Variable(variable) => Some(self.value_of(self.alone(variable, name))),
            _ => None,
        }
    }

    /// A call, where the name is no constant and no variable.
    #[tactic(auto, unfolding(crate::specs::Expr::call_by, crate::specs::Forms::call_form))]
    #[cycle(expr)]
    fn named_call(
        &self,
        made: &mut Made,
        meaning: Meaning,
        name: Span,
        actuals: &[pas_tree::Actual],
    ) -> Result<Typed, Fault>
        ensures value { Gives type_of (spec.call_by (sight self.now) meaning name.start (map (given (sight self.now)) actuals.now)) result }
        ensures writes { OnOk result (written made.new ≡ call_writes (sight self.now) (Ok meaning) (map (given (sight self.now)) actuals.now) (written made.old)) }
        ensures form { IfOk result (λ r. call_form (sight self.now) meaning name (map (given_form (sight self.now)) actuals.now) made.old.built ≡ Some (r, made.new.built)) }
    {
        match meaning {
            Meaning::Routine {
                head,
                function: true,
            } => self.function_call(made, head, name, actuals),
            Meaning::Required(function) => self.required_call(made, function, name, actuals),
            _ => Err(Rule::Kind.broken(name.start)),
        }
    }

    #[cycle(expr)]
    fn required_call(
        &self,
        made: &mut Made,
        function: Required,
        name: Span,
        actuals: &[pas_tree::Actual],
    ) -> Result<Typed, Fault>
        ensures value { Gives type_of (spec.required_call function name.start (map (given (sight self.now)) actuals.now)) result }
        ensures writes { OnOk result (written made.new ≡ writes_in_turn actual_writes (map (given (sight self.now)) actuals.now) (written made.old)) }
        ensures form { IfOk result (λ r. required_form function name.start (map (given_form (sight self.now)) actuals.now) made.old.built ≡ Some (r, made.new.built)) }
    {
        if actuals.len() == 1 {
            self.required_of(made, function, name, &actuals[0])
        } else {
            Err(Rule::ActualCount.broken(name.start))
        }
    }

    #[tactic(auto, unfolding(crate::specs::Expr::required_of, crate::specs::Forms::required_of_form))]
    #[cycle(expr)]
    fn required_of(
        &self,
        made: &mut Made,
        function: Required,
        name: Span,
        actual: &pas_tree::Actual,
    ) -> Result<Typed, Fault>
        ensures value { Gives type_of (spec.required_of function (given (sight self.now) actual.now)) result }
        ensures writes { OnOk result (written made.new ≡ actual_writes (given (sight self.now) actual.now) (written made.old)) }
        ensures form { IfOk result (λ r. required_of_form function name.start (given_form (sight self.now) actual.now) made.old.built ≡ Some (r, made.new.built)) }
    {
        let value = self.value_actual(actual)?;
        let (operand, boolean) = self.scalar(made, value)?;
        let Some((op, truth)) = required_operator(function, boolean) else {
            return Err(Rule::Type.broken(self.first(value)));
        };
        self.no_width(actual)?;
        self.unary(op, operand, name.start, truth)
    }

    /// A call of a declared function, with a slot for its result.
    #[tactic(auto, unfolding(crate::specs::Expr::function_call, crate::specs::Forms::function_form))]
    #[cycle(expr)]
    fn function_call(
        &self,
        made: &mut Made,
        head: usize,
        name: Span,
        actuals: &[pas_tree::Actual],
    ) -> Result<Typed, Fault>
        ensures value { Gives type_of (spec.function_call (sight self.now) head name.start (map (given (sight self.now)) actuals.now)) result }
        ensures writes { OnOk result (written made.new ≡ all_passed_writes (sight self.now) (formals_at (sight self.now) head) (map (given (sight self.now)) actuals.now) (written made.old)) }
        ensures form { IfOk result (λ r. function_form (sight self.now) head name (map (given_form (sight self.now)) actuals.now) made.old.built ≡ Some (r, made.new.built)) }
    {
        let Some(callee) = self.callee(head) else {
            return Err(Rule::Kind.broken(name.start));
        };
        if callee.formals != actuals.len() {
            return Err(Rule::ActualCount.broken(name.start));
        }
        if self.is_asserting() {
            return Err(Rule::AssertionCall.broken(name.start));
        }
        let slot = made.built.add_own(name, VarKind::Slot, callee.result)?;
        let actuals = self.actuals(made, head, actuals)?;
        Ok(self.called(callee.routine, actuals, slot, callee.result, name.start))
    }

    /// The value of a call.
    fn called(
        &self,
        routine: u32,
        actuals: Items<Actual>,
        slot: u32,
        of_type: u32,
        at: u32,
    ) -> Typed
        ensures of_type { type_of result ≡ scalar (spec.is_host (host_at (sight self.now) of_type) true) }
        ensures form { result ≡ scalar_of at (form.Call routine actuals slot at) (spec.is_host (host_at (sight self.now) of_type) true) }
    {
        Typed::Scalar {
            expr: Expr {
                first: at,
                form: ExprForm::Call {
                    routine,
                    actuals,
                    slot,
                    at,
                },
            },
            boolean: self.is_host(of_type, true),
        }
    }
}
