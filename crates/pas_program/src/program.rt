ghost use Rattle.pas_program.specs.Valid.{InRange, WellTyped, InScope, Bounded};
ghost use Rattle.pas_program.specs.Types.{TypesFit};
ghost use Rattle.pas_program.specs.Labels.{LabelsStand, ControlsAreLocal, ConstantsDiffer, AssertsStand};
ghost use Rattle.pas_program.specs.Order.{ListsOrdered};
ghost use Rattle.pas_program.specs.Tables.{tables_of};

use crate::routine::{Assert, Routine};
use crate::type_def::TypeDef;
use crate::variable::VarDef;
use sqlite_items::Items;

/// A checked program.
#[derive(Debug, Drop)]
pub struct Program {
    pub types: Items<TypeDef>,
    pub vars: Items<VarDef>,
    /// In the order of the `begin` of their statement parts, so that the program's block is the last.
    pub routines: Items<Routine>,
    pub asserts: Items<Assert>,
    pub ghost types_fit: { TypesFit types },
    pub ghost in_range: { InRange types vars routines asserts },
    pub ghost well_typed: { WellTyped types vars routines asserts },
    pub ghost in_scope: { InScope types vars routines asserts },
    pub ghost bounded: { Bounded types vars routines asserts },
    pub ghost labels_stand: { LabelsStand routines },
    pub ghost controls_local: { ControlsAreLocal (tables_of types vars routines) routines },
    pub ghost constants_differ: { ConstantsDiffer routines },
    pub ghost asserts_stand: { AssertsStand routines asserts },
    pub ghost lists_ordered: { ListsOrdered vars routines },
}
