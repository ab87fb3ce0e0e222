//! What a call passes to the class that it enters.

ghost use Rattle.std.specs.Prelude.{◌≡◌, ℕ, ◌+◌, ◌<◌, ◌≤◌, ◌^◌, [], ◌∷◌, ◌++◌, All, IfOk, OnOk, filter_map, length, map};
ghost use Rattle.std.specs.List.{range_with_len};
ghost use Rattle.alias_class.specs.Calls.{link_of, shared_bind};
ghost use Rattle.alias_class.specs.Passings.{AreCells, IsForeign, IsPassing, foreign_after, namers_after, shared_link, sharing_of};

use crate::bind::{Bind, Link};
use indexmap::IndexSet;
use sqlite_items::Items;
use std::alloc::{AllocError, Global};

/// The cells that a callee has in common with the class that calls, and what its variable parameters are bound to.
#[derive(Drop)]
pub(crate) struct Passing {
    /// How many cells are those of the class of the callee's static parent, which have one number in both.
    pub inherited: u32,
    /// The first foreign cell of the callee.
    pub first_foreign: u32,
    /// The caller's cells that are the foreign ones of the callee, in their order.
    pub foreign: IndexSet<u32>,
    pub bindings: Vec<Bind>,
    /// For each foreign cell, the variable parameter that first names it.
    pub namers: Items<u32>,
}

impl Passing {
    /// For variable parameters that are these, and stand for these names of the class that calls.
    pub fn new(
        alloc: Global,
        inherited: u32,
        first_foreign: u32,
        formals: &[u32],
        named: &[Bind],
    ) -> Result<Passing, AllocError>
        requires formals { length named.now ≤ length formals.now }
        requires few { first_foreign + length named.now < 2 ^ 32 }
        requires behind { inherited ≤ first_foreign }
        ensures { IfOk result (λ p. IsPassing p inherited first_foreign formals.now named.now) }
    {
        let mut passing = Passing {
            inherited,
            first_foreign,
            foreign: IndexSet::new(alloc),
            bindings: Vec::with_capacity(alloc, named.len())?,
            namers: Items::new(alloc),
        };
        for (rank, &name) in named.iter().enumerate() {
            passing.bind(name, formals[rank])?;
        }
        Ok(passing)
    }

    /// Binds the next variable parameter, which is `formal` and stands for `named`.
    fn bind(&mut self, named: Bind, formal: u32) -> Result<(), AllocError>
        requires { self.old.first_foreign + length self.old.foreign.keys + 1 < 2 ^ 32 }
        ensures inherited { OnOk result (self.new.inherited ≡ self.old.inherited) }
        ensures first_foreign { OnOk result (self.new.first_foreign ≡ self.old.first_foreign) }
        ensures foreign { OnOk result (self.new.foreign.keys ≡ foreign_after self.old.inherited self.old.foreign.keys named) }
        ensures bindings { OnOk result (self.new.bindings.items ≡ self.old.bindings.items ++ shared_bind (sharing_of self.new) named ∷ []) }
        ensures namers { OnOk result (self.new.namers ≡ namers_after self.old.inherited self.old.foreign.keys self.old.namers named formal) }
    {
        let cell = if named.cell < self.inherited {
            named.cell
        } else {
            let (rank, is_new) = self.foreign.insert_full(named.cell)?;
            if is_new {
                self.namers.push(formal)?;
            }
            self.first_foreign + rank as u32
        };
        self.bindings.push(Bind {
            whole: named.whole,
            cell,
        })?;
        Ok(())
    }

    /// The links of the call, in rising order of the caller's cells.
    pub fn links(&self, alloc: Global) -> Result<Vec<Link>, AllocError>
        requires fits { self.now.first_foreign + length self.now.foreign.keys < 2 ^ 32 }
        requires behind { All (λ cell. self.now.inherited ≤ cell) self.now.foreign.keys }
        ensures links { (count : ℕ) → AreCells self.now.foreign.keys self.now.inherited count → IfOk result (λ links. links.items ≡ filter_map (link_of (sharing_of self.now)) (range_with_len 0 count)) }
    {
        let mut foreign = Vec::from_slice(alloc, self.foreign.as_slice())?;
        foreign.sort_unstable();
        let mut links = Vec::with_capacity(alloc, self.inherited as usize + foreign.len())?;
        for cell in 0..self.inherited {
            links.push(Link {
                caller: cell,
                callee: cell,
            })?;
        }
        self.add_foreign_links(&mut links, &foreign)?;
        Ok(links)
    }

    /// Adds the links of foreign cells, by their numbers in the class that calls.
    fn add_foreign_links(&self, links: &mut Vec<Link>, cells: &[u32]) -> Result<(), AllocError>
        requires fits { self.now.first_foreign + length self.now.foreign.keys < 2 ^ 32 }
        requires foreign { All (IsForeign self.now) cells.now }
        ensures { OnOk result (links.new.items ≡ links.old.items ++ map (shared_link (sharing_of self.now)) cells.now) }
    {
        for &cell in cells {
            links.push(self.foreign_link(cell))?;
        }
        Ok(())
    }

    /// The link of a foreign cell, by its number in the class that calls.
    fn foreign_link(&self, cell: u32) -> Link
        requires fits { self.now.first_foreign + length self.now.foreign.keys < 2 ^ 32 }
        requires foreign { IsForeign self.now cell }
        ensures { result ≡ shared_link (sharing_of self.now) cell }
    {
        let rank = self.foreign.get_index_of(&cell).unwrap();
        Link {
            caller: cell,
            callee: self.first_foreign + rank as u32,
        }
    }

    /// The bindings, and the variable parameters that first name foreign cells.
    pub fn into_parts(self) -> (Vec<Bind>, Items<u32>)
        ensures { result ≡ (self.bindings, self.namers) }
    {
        let Passing {
            bindings,
            namers,
            ..
        } = self;
        (bindings, namers)
    }
}
