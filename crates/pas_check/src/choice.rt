//! The `case` statement (ISO 7185, 6.8.3.5).

ghost use Rattle.std.specs.Prelude.{◌≡◌, [], ◌∷◌, ◌++◌, false, IfOk, OnOk, Some, map};
ghost use Rattle.indexmap.specs.IndexMap.{keys};
ghost use Rattle.pas_check.specs.Outcome.{Gives};
ghost use Rattle.pas_check.specs.Rules.{is_double};
ghost use Rattle.pas_check.specs.Sight.{sight};
ghost use Rattle.pas_check.specs.Statement as spec;
ghost use Rattle.pas_check.specs.StatementForms.{arm_form, arms_form, constant_value, constants_form};
ghost use Rattle.pas_check.specs.Statements.{arms_in_turn, case_constants, stated_arm};
ghost use Rattle.pas_check.specs.Writes.{arm_writes, in_turn_writes};
ghost use Rattle.pas_check.specs.Written.{written};

use crate::checker::Checker;
use crate::fault::{Fault, Rule};
use crate::seen::{Made, Seen};
use indexmap::IndexMap;
use pas_program::Arm;
use pas_tree::{Constant, Element};
use sqlite_items::Items;
use std::alloc::AllocError;

impl<'t> Checker<'t> {
    /// The arms of a `case` whose selector has this host.
    #[cycle(statement)]
    pub fn arms(&mut self, arms: &[Element], boolean: bool) -> Result<Items<Arm>, Fault>
        ensures value { Gives (λ list. tt) (arms_in_turn (sight self.old.seen) boolean [] (map stated_arm arms.now)) result }
        ensures kept { OnOk result (sight self.new.seen ≡ sight self.old.seen) }
        ensures writes { OnOk result (written self.new.made ≡ in_turn_writes (map arm_writes arms.now) (sight self.old.seen) (written self.old.made)) }
        ensures form { IfOk result (λ r. arms_form (map arm_form arms.now) (sight self.old.seen) self.old.made.built ≡ Some (r, self.new.made.built)) }
    {
        let mut before = IndexMap::new(self.seen.alloc);
        let mut list = Items::new(self.seen.alloc);
        for arm in arms {
            let consts = self.seen.case_constants(
                &mut self.made,
                arm.consts.as_slice(),
                boolean,
                &mut before,
            )?;
            let body = self.statement(&arm.body)?;
            list.push(Arm { consts, body }).map_err(Fault::Memory)?;
        }
        Ok(list)
    }
}

impl<'t> Seen<'t> {
    /// The constants of an arm, which have the selector's host and do not stand before.
    fn case_constants(
        &self,
        made: &mut Made,
        constants: &[Constant],
        boolean: bool,
        before: &mut IndexMap<i32, ()>,
    ) -> Result<Items<i32>, Fault>
        ensures value { Gives (λ values. keys before.new) (case_constants (sight self.now) boolean (keys before.old) constants.now) result }
        ensures writes { OnOk result (written made.new ≡ written made.old) }
        ensures form { IfOk result (λ values. constants_form (sight self.now) constants.now ≡ Some values) }
        ensures kept { made.new.built ≡ made.old.built }
    {
        let mut values = Items::new(self.alloc);
        for constant in constants {
            let value = self.case_constant(made, constant, boolean, before)?;
            add(before, value).map_err(Fault::Memory)?;
            values.push(value).map_err(Fault::Memory)?;
        }
        Ok(values)
    }

    /// A constant of a `case`, which has the selector's host and does not stand before.
    fn case_constant(
        &self,
        made: &mut Made,
        constant: &Constant,
        boolean: bool,
        before: &IndexMap<i32, ()>,
    ) -> Result<i32, Fault>
        ensures value { Gives (λ z. z) (spec.case_constant (sight self.now) (keys before.now) boolean constant.now) result }
        ensures writes { OnOk result (written made.new ≡ written made.old) }
        ensures new { IfOk result (λ z. is_double z (keys before.now) ≡ false) }
        ensures form { IfOk result (λ z. constant_value (sight self.now) constant.now ≡ Some z) }
        ensures kept { made.new.built ≡ made.old.built }
    {
        let value = self.constant(made, constant)?;
        if value.boolean != boolean {
            return Err(Rule::Type.broken(constant.span.start));
        }
        if contains(before, value.value) {
            return Err(Rule::CaseConstant.broken(constant.span.start));
        }
        Ok(value.value)
    }
}

/// Whether a constant stands before.
fn contains(before: &IndexMap<i32, ()>, value: i32) -> bool
    ensures { result ≡ is_double value (keys before.now) }
{
    before.contains_key(&value)
}

fn add(before: &mut IndexMap<i32, ()>, value: i32) -> Result<(), AllocError>
    requires { is_double value (keys before.old) ≡ false }
    ensures { OnOk result (keys before.new ≡ keys before.old ++ value ∷ []) }
{
    before.insert(value, ())?;
    Ok(())
}
