//! Procedure calls, `read` and `write` among them (ISO 7185, 6.8.2.3 and 6.9).

ghost use Rattle.std.specs.Prelude.{◌≡◌, false, IfOk, OnOk, Some, map};
ghost use Rattle.std.specs.Option.{option_map};
ghost use Rattle.pas_check.specs.Expr.{all_passed_writes, formals_at, found, found_writes, given, given_writes, meant, value_given};
ghost use Rattle.pas_check.specs.Forms.{actual_value_form, expr_form, given_form};
ghost use Rattle.pas_check.specs.Outcome.{Gives, each};
ghost use Rattle.pas_check.specs.Sight.{sight};
ghost use Rattle.pas_check.specs.Statement as spec;
ghost use Rattle.pas_check.specs.StatementForms as forms;
ghost use Rattle.pas_check.specs.StatementForms.{called_form, item_form, procedure_form, read_form, reads_form, transput_form, width_form, writes_form, written_form};
ghost use Rattle.pas_check.specs.Statements as whole;
ghost use Rattle.pas_check.specs.Writes.{item_writes, procedure_writes, read_writes, transput_writes, width_writes};
ghost use Rattle.pas_check.specs.Written.{writes_in_turn, written};

use crate::fault::{Fault, Rule};
use crate::meaning::{Meaning, Transput};
use crate::seen::{Made, Seen};
use pas_program::{Access, Body, Expr, WriteItem, WriteValue};
use pas_tree::{Actual, ActualValue};
use px_base::Span;
use sqlite_items::Items;
use std::alloc::{AllocError, Global};

/// The bytes that a string stands for: without the quotes around it, and one quote for each two.
fn unquoted(alloc: Global, quoted: &[u8]) -> Result<Items<u8>, AllocError>
    ensures { IfOk result (λ bytes. bytes ≡ forms.unquoted quoted.now) }
{
    let mut bytes = Items::new(alloc);
    // Whether a quote that comes next is left out.
    let mut skip = true;
    for byte in quoted.get(..quoted.len().saturating_sub(1)).unwrap_or(&[]) {
        let quote = *byte == b'\'';
        if quote && skip {
            skip = false;
            continue;
        }
        bytes.push(*byte)?;
        skip = quote;
    }
    Ok(bytes)
}

/// Whether it may stand without actuals.
fn is_line(transput: Transput) -> bool
    ensures { result ≡ whole.is_line transput }
{
    match transput {
        Transput::Readln | Transput::Writeln => true,
        Transput::Read | Transput::Write => false,
    }
}

impl<'t> Seen<'t> {
    /// A procedure with its actuals.
    #[tactic(auto, unfolding(crate::specs::Statements::call))]
    pub fn call(&self, made: &mut Made, name: Span, actuals: &[Actual]) -> Result<Body, Fault>
        ensures value { Gives (λ b. tt) (whole.call (sight self.now) name (map (given (sight self.now)) actuals.now)) result }
        ensures writes { OnOk result (written made.new ≡ procedure_writes (sight self.now) (meant (sight self.now) name) (map (given (sight self.now)) actuals.now) (written made.old)) }
        ensures form { IfOk result (λ r. forms.call_form (sight self.now) name (map (given_form (sight self.now)) actuals.now) made.old.built ≡ Some (r, made.new.built)) }
    {
        let meaning = self.meaning(made, name)?;
        self.called_by(made, meaning, name, actuals)
    }

    #[tactic(auto, unfolding(crate::specs::Statements::called_by, crate::specs::StatementForms::called_form))]
    fn called_by(
        &self,
        made: &mut Made,
        meaning: Meaning,
        name: Span,
        actuals: &[Actual],
    ) -> Result<Body, Fault>
        ensures value { Gives (λ b. tt) (whole.called_by (sight self.now) meaning name.start (map (given (sight self.now)) actuals.now)) result }
        ensures writes { OnOk result (written made.new ≡ procedure_writes (sight self.now) (Ok meaning) (map (given (sight self.now)) actuals.now) (written made.old)) }
        ensures form { IfOk result (λ r. called_form (sight self.now) meaning name.start (map (given_form (sight self.now)) actuals.now) made.old.built ≡ Some (r, made.new.built)) }
    {
        match meaning {
            Meaning::Routine {
                head,
                function: false,
            } => self.procedure_call(made, head, name, actuals),
            Meaning::Transput(transput) => self.transput(made, transput, name, actuals),
            _ => Err(Rule::Kind.broken(name.start)),
        }
    }

    #[tactic(auto, unfolding(crate::specs::Statement::procedure_call))]
    fn procedure_call(
        &self,
        made: &mut Made,
        head: usize,
        name: Span,
        actuals: &[Actual],
    ) -> Result<Body, Fault>
        ensures value { Gives (λ b. tt) (spec.procedure_call (sight self.now) head name.start (map (given (sight self.now)) actuals.now)) result }
        ensures writes { OnOk result (written made.new ≡ all_passed_writes (sight self.now) (formals_at (sight self.now) head) (map (given (sight self.now)) actuals.now) (written made.old)) }
        ensures form { IfOk result (λ r. procedure_form (sight self.now) head name.start (map (given_form (sight self.now)) actuals.now) made.old.built ≡ Some (r, made.new.built)) }
    {
        let Some(callee) = self.callee(head) else {
            return Err(Rule::Kind.broken(name.start));
        };
        if callee.formals != actuals.len() {
            return Err(Rule::ActualCount.broken(name.start));
        }
        Ok(Body::Call {
            routine: callee.routine,
            actuals: self.actuals(made, head, actuals)?,
            at: name.start,
        })
    }

    #[tactic(auto, unfolding(crate::specs::Statements::transput_call, crate::specs::StatementForms::transput_form))]
    fn transput(
        &self,
        made: &mut Made,
        transput: Transput,
        name: Span,
        actuals: &[Actual],
    ) -> Result<Body, Fault>
        ensures value { Gives (λ b. tt) (whole.transput_call (sight self.now) transput name.start (map (given (sight self.now)) actuals.now)) result }
        ensures writes { OnOk result (written made.new ≡ transput_writes (sight self.now) transput (map (given (sight self.now)) actuals.now) (written made.old)) }
        ensures form { IfOk result (λ r. transput_form (sight self.now) transput (map (given_form (sight self.now)) actuals.now) made.old.built ≡ Some (r, made.new.built)) }
    {
        let line = is_line(transput);
        if actuals.is_empty() && !line {
            return Err(Rule::ActualCount.broken(name.start));
        }
        match transput {
            Transput::Read | Transput::Readln => self.read(made, actuals, line),
            Transput::Write | Transput::Writeln => self.write(made, actuals, line),
        }
    }

    /// Variables of the host `integer`.
    fn read(&self, made: &mut Made, actuals: &[Actual], line: bool) -> Result<Body, Fault>
        ensures value { Gives (λ b. tt) (spec.all_read (sight self.now) (map (given (sight self.now)) actuals.now)) result }
        ensures writes { OnOk result (written made.new ≡ writes_in_turn (read_writes (sight self.now)) (map (given (sight self.now)) actuals.now) (written made.old)) }
        ensures form { IfOk result (λ r. reads_form line (map (given_form (sight self.now)) actuals.now) made.old.built ≡ Some (r, made.new.built)) }
    {
        let mut to = Items::new(self.alloc);
        for actual in actuals {
            let access = self.read_into(made, actual)?;
            to.push(access).map_err(Fault::Memory)?;
        }
        Ok(Body::Read { to, line })
    }

    #[tactic(auto, unfolding(crate::specs::Statement::read_into))]
    fn read_into(&self, made: &mut Made, actual: &Actual) -> Result<Access, Fault>
        ensures value { Gives (λ a. tt) (spec.read_into (sight self.now) (given (sight self.now) actual.now)) result }
        ensures writes { OnOk result (written made.new ≡ read_writes (sight self.now) (given (sight self.now) actual.now) (written made.old)) }
        ensures form { IfOk result (λ r. read_form (given_form (sight self.now) actual.now) made.old.built ≡ Some (r, made.new.built)) }
    {
        let value = self.value_actual(actual)?;
        let reached = self.variable_of(made, value)?;
        if !self.is_host(reached.of_type, false) {
            return Err(Rule::Type.broken(self.first(value)));
        }
        self.threaten(made, reached.whole, self.first(value))?;
        self.no_width(actual)?;
        Ok(reached.access)
    }

    /// Scalars and strings.
    fn write(&self, made: &mut Made, actuals: &[Actual], line: bool) -> Result<Body, Fault>
        ensures value { Gives (λ b. tt) (each whole.written (map (given (sight self.now)) actuals.now)) result }
        ensures writes { OnOk result (written made.new ≡ writes_in_turn item_writes (map (given (sight self.now)) actuals.now) (written made.old)) }
        ensures form { IfOk result (λ r. writes_form (sight self.now) line (map (given_form (sight self.now)) actuals.now) made.old.built ≡ Some (r, made.new.built)) }
    {
        let mut items = Items::new(self.alloc);
        for actual in actuals {
            let item = self.written(made, actual)?;
            items.push(item).map_err(Fault::Memory)?;
        }
        Ok(Body::Write { items, line })
    }

    #[tactic(auto, unfolding(crate::specs::Statements::written, crate::specs::Expr::given))]
    fn written(&self, made: &mut Made, actual: &Actual) -> Result<WriteItem, Fault>
        ensures value { Gives (λ i. tt) (whole.written (given (sight self.now) actual.now)) result }
        ensures writes { OnOk result (written made.new ≡ item_writes (given (sight self.now) actual.now) (written made.old)) }
        ensures form { IfOk result (λ r. item_form (sight self.now) (given_form (sight self.now) actual.now) made.old.built ≡ Some (r, made.new.built)) }
    {
        let value = self.value_written(made, &actual.value)?;
        let width = self.width_written(made, &actual.width)?;
        Ok(WriteItem { value, width })
    }

    /// The width of what is written, where there is one.
    fn width_written(
        &self,
        made: &mut Made,
        width: &Option<pas_tree::Expr>,
    ) -> Result<Option<Expr>, Fault>
        ensures value { Gives (λ w. tt) (whole.width_written (option_map (found (sight self.now)) width.now)) result }
        ensures writes { OnOk result (written made.new ≡ width_writes (option_map (found (sight self.now)) width.now) (written made.old)) }
        ensures form { IfOk result (λ r. width_form (option_map (expr_form (sight self.now)) width.now) made.old.built ≡ Some (r, made.new.built)) }
    {
        match width {
            Some(width) => Ok(Some(self.of_host(made, width, false)?)),
            None => Ok(None),
        }
    }

    #[tactic(auto, unfolding(crate::specs::Expr::value_given, crate::specs::Expr::found))]
    fn value_written(&self, made: &mut Made, value: &ActualValue) -> Result<WriteValue, Fault>
        ensures value { Gives (λ w. tt) (whole.value_written (value_given (sight self.now) value.now)) result }
        ensures writes { OnOk result (written made.new ≡ given_writes found_writes (value_given (sight self.now) value.now) (written made.old)) }
        ensures form { IfOk result (λ r. written_form (sight self.now) (actual_value_form (sight self.now) value.now) made.old.built ≡ Some (r, made.new.built)) }
    {
        match value {
            ActualValue::Value(value) => Ok(WriteValue::Value(self.scalar(made, value)?.0)),
            ActualValue::Text(span) => Ok(WriteValue::Text {
                bytes: unquoted(self.alloc, self.spelling(*span)).map_err(Fault::Memory)?,
                at: span.start,
            }),
        }
    }
}
