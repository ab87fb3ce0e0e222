//! The table of classes, and its readers.

ghost use Rattle.std.specs.Prelude.{ℕ, ◌≡◌, ◌<◌, ◌≤◌, [], ◌∷◌, IfOk, IfSome, IsNone, IsSome, Some, length, slice_get, true, ◌↔◌};
ghost use Rattle.std.specs.Option.{option_map};
ghost use Rattle.pas_program.specs.declared.expr.Actual.TheViews.{out-Access};
ghost use Rattle.alias_class.specs.Cells.{IsClass, around, cell_count, is_seen, range_of_cell, resolve, resolve_access, routine_of};
ghost use Rattle.alias_class.specs.Classes.{bindings_of, class_at, parent_class};
ghost use Rattle.alias_class.specs.Outlines.{outline_of, range_of_variable};
ghost use Rattle.alias_class.specs.Tables.{OwnsCell};

use crate::bind::Bind;
use crate::key::Key;
use crate::outline::{Outline, Referent};
use control_points::Flow;
use indexmap::IndexSet;
use interval::Itv;
use pas_program::Access;
use sqlite_items::Items;
use std::alloc::{AllocError, Global};
use std::marker::Model;

/// What is kept of a class beside its key.
#[derive(Debug, Drop)]
pub(crate) struct Row {
    pub routine: u32,
    /// How many of its cells are those of its static parent's class.
    pub inherited: u32,
    pub cells: u32,
    /// For each foreign cell, the variable parameter that first names it.
    pub namers: Items<u32>,
}

/// The classes of activations of a program, numbered in the order in which they were added, the class of the program's block first.
///
/// A class has a cell for each variable that its routine sees, and a variable parameter has that of the variable for which it stands. The
/// cells of the class of its static parent come first, with the numbers that they have there. Its own variables other than variable
/// parameters follow, in their routine's order, and then foreign cells: what variable parameters stand for that is none of these.
#[derive(Drop)]
pub struct Classes {
    pub(crate) outline: Outline,
    pub(crate) keys: IndexSet<Key>,
    pub(crate) rows: Vec<Row>,
}

impl Model for Classes {
    ghost use Rattle.alias_class.specs.Tables.{Table, classes_of, IsKept};

    ghost Value = { Table };

    ghost view = { λ t. record { outline = t.outline; classes = classes_of t.keys.keys } };

    ghost invariant = { λ t. IsKept t.outline t.keys.keys t.rows.items };
}

impl Classes {
    /// The class of the program's block alone.
    pub fn new(alloc: Global, flow: &Flow) -> Result<Classes, AllocError>
        ensures { IfOk result (λ t. t ≡ record { outline = outline_of flow.now; classes = [] ∷ [] }) }
    {
        let outline = Outline::of_program(alloc, flow.program())?;
        let mut rows = Vec::with_capacity(alloc, 1)?;
        rows.push(Row {
            routine: outline.main,
            inherited: 0,
            cells: outline.own(outline.main).len() as u32,
            namers: Items::new(alloc),
        })?;
        Ok(Classes {
            outline,
            keys: IndexSet::new(alloc),
            rows,
        })
    }

    /// How many classes there are.
    pub fn count(&self) -> u32
        ensures value { result ≡ length self.now.classes }
        ensures each_is_a_class { (i : ℕ) → i < length self.now.classes → IsClass self.now.outline (class_at self.now.classes i) }
    {
        self.rows.len() as u32
    }

    /// The routine that is analysed in a class.
    pub fn routine(&self, class: u32) -> u32
        requires { class < length self.now.classes }
        ensures value { result ≡ routine_of self.now.outline (class_at self.now.classes class) }
        ensures is_class { IsClass self.now.outline (class_at self.now.classes class) }
    {
        self.rows[class as usize].routine
    }

    /// The class of the static parent. That of the program's block alone has none.
    pub fn parent(&self, class: u32) -> Option<u32>
        requires { class < length self.now.classes }
        ensures value { option_map (class_at self.now.classes) result ≡ parent_class (class_at self.now.classes class) }
        ensures before { IfSome result (λ parent. parent < class) }
        ensures outermost { IsNone result ↔ (class ≡ 0) }
    {
        let keys = self.keys.as_slice();
        if class == 0 {
            return None;
        }
        Some(keys[class as usize - 1].parent)
    }

    /// How many cells a class has.
    pub fn cells(&self, class: u32) -> u32
        requires { class < length self.now.classes }
        ensures { result ≡ cell_count self.now.outline (class_at self.now.classes class) }
    {
        self.rows[class as usize].cells
    }

    /// The numbers that a scalar in a cell may be, by the type of its variable; for a foreign cell, of a variable parameter that is bound to it.
    /// The time is linear in the number of routines around that of the class.
    pub fn range(&self, class: u32, cell: u32) -> Itv
        requires class { class < length self.now.classes }
        requires cell { cell < cell_count self.now.outline (class_at self.now.classes class) }
        ensures { result ≡ range_of_cell self.now.outline (class_at self.now.classes class) cell }
    {
        let owner = self.owner(class, cell);
        let var = self.variable_in(owner, cell);
        self.outline.variable(var).range
    }

    /// What the name of a variable stands for in a class. The time is linear in the number of routines between that of the class and that of
    /// the variable.
    pub fn resolve(&self, class: u32, var: u32) -> Bind
        requires class { class < length self.now.classes }
        requires seen { is_seen self.now.outline (class_at self.now.classes class) var ≡ true }
        ensures value { result ≡ resolve self.now.outline (class_at self.now.classes class) var }
        ensures in_range { result.cell < cell_count self.now.outline (class_at self.now.classes class) }
    {
        let variable = self.outline.variable(var);
        let owner = self.around(class, variable.routine);
        match variable.referent {
            Referent::Own(rank) => Bind {
                whole: true,
                cell: self.rows[owner as usize].inherited + rank,
            },
            Referent::Bound(rank) => self.bindings(owner)[rank as usize],
        }
    }

    /// The same for a variable with subscripts, which stands for a part.
    pub fn resolve_access(&self, class: u32, access: &Access) -> Bind
        requires class { class < length self.now.classes }
        requires seen { is_seen self.now.outline (class_at self.now.classes class) (out-Access access.now).var ≡ true }
        ensures value { result ≡ resolve_access self.now.outline (class_at self.now.classes class) access.now }
        ensures in_range { result.cell < cell_count self.now.outline (class_at self.now.classes class) }
    {
        let bind = self.resolve(class, access.var);
        Bind {
            whole: bind.whole && access.subscripts.is_empty(),
            cell: bind.cell,
        }
    }

    /// The class of a routine that is that of the class or one around it: for a routine that declares another, where a call of that other from the
    /// class has its static parent. The time is linear in the number of routines between the two.
    pub fn around(&self, class: u32, routine: u32) -> u32
        requires class { class < length self.now.classes }
        requires seen { IsSome (around self.now.outline (class_at self.now.classes class) routine) }
        ensures value { around self.now.outline (class_at self.now.classes class) routine ≡ slice_get self.now.classes result }
        ensures before { result ≤ class }
    {
        let mut owner = class as usize;
        while self.rows[owner].routine != routine {
            owner = self.keys[owner - 1].parent as usize;
        }
        owner as u32
    }

    /// The class, or the one around it, that doesn't have the cell from its static parent's.
    fn owner(&self, class: u32, cell: u32) -> u32
        requires class { class < length self.now.classes }
        requires cell { cell < cell_count self.now.outline (class_at self.now.classes class) }
        ensures owner { OwnsCell self.now.outline (class_at self.now.classes result) cell }
        ensures same { range_of_cell self.now.outline (class_at self.now.classes result) cell ≡ range_of_cell self.now.outline (class_at self.now.classes class) cell }
        ensures before { result ≤ class }
    {
        let mut owner = class as usize;
        while cell < self.rows[owner].inherited {
            owner = self.keys[owner - 1].parent as usize;
        }
        owner as u32
    }

    /// The variable of a cell that isn't one of the static parent's class: a variable of the class's own, or a variable parameter that is
    /// bound to it.
    fn variable_in(&self, class: u32, cell: u32) -> u32
        requires class { class < length self.now.classes }
        requires owner { OwnsCell self.now.outline (class_at self.now.classes class) cell }
        ensures in_range { result < length self.now.outline.variables }
        ensures range { range_of_cell self.now.outline (class_at self.now.classes class) cell ≡ range_of_variable self.now.outline result }
    {
        let row = &self.rows[class as usize];
        let own = self.outline.own(row.routine);
        let rank = (cell - row.inherited) as usize;
        if rank < own.len() {
            own[rank]
        } else {
            row.namers.as_slice()[rank - own.len()]
        }
    }

    /// What the variable parameters of a class are bound to.
    fn bindings(&self, class: u32) -> &[Bind]
        requires { class < length self.now.classes }
        ensures { result.now ≡ bindings_of (class_at self.now.classes class) }
    {
        let keys = self.keys.as_slice();
        if class == 0 {
            return &[];
        }
        keys[class as usize - 1].bindings.as_slice()
    }
}
