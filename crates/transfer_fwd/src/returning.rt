//! What the return of a call takes back.

ghost use Rattle.std.specs.Prelude.{◌≡◌, IsTrue};
ghost use Rattle.abstract_expr.specs.Standing.{cells_in};
ghost use Rattle.environment.specs.Environments.{cell_count, is_reachable};
ghost use Rattle.environment.specs.Kept.{room_of};
ghost use Rattle.transfer_fwd.specs.Crossings.{back_from, linked_back, result_set};

use crate::crossing::Crossing;
use environment::Env;
use interval::Val;
use lattice::Lattice;

impl Crossing<'_> {
    ghost use Rattle.transfer_fwd.specs.Crossed.{crossing_of};

    /// Makes `left`, what the call leaves of its own, the environment where it returns from `exit`.
    pub(crate) fn come_back(&self, left: &mut Env, exit: &Env)
        requires left { cell_count left.old.env ≡ cells_in self.now.classes.now self.now.outside }
        requires exit { cell_count exit.now.env ≡ cells_in self.now.classes.now self.now.inside }
        ensures value { left.new.env ≡ back_from (crossing_of self.now) exit.now.env left.old.env }
        ensures cells { cell_count left.new.env ≡ cell_count left.old.env }
        ensures room { room_of left.new ≡ room_of left.old }
    {
        if !left.reachable() {
            return;
        }
        if !exit.reachable() {
            left.set_bottom();
            return;
        }
        self.link_back(left, exit);
        self.give_result(left, exit);
    }

    /// The cells that are linked get the values that they have at the exit.
    fn link_back(&self, left: &mut Env, exit: &Env)
        requires reached { IsTrue (is_reachable left.old.env) }
        requires ended { IsTrue (is_reachable exit.now.env) }
        requires left { cell_count left.old.env ≡ cells_in self.now.classes.now self.now.outside }
        requires exit { cell_count exit.now.env ≡ cells_in self.now.classes.now self.now.inside }
        ensures value { left.new.env ≡ linked_back exit.now.env self.now.links.now left.old.env }
        ensures reached { IsTrue (is_reachable left.new.env) }
        ensures cells { cell_count left.new.env ≡ cell_count left.old.env }
        ensures room { room_of left.new ≡ room_of left.old }
    {
        self.shares();
        for link in self.links {
            left.set(link.caller, exit.get(link.callee));
        }
    }

    /// The slot of a function gets its result, which must be defined.
    fn give_result(&self, left: &mut Env, exit: &Env)
        requires reached { IsTrue (is_reachable left.old.env) }
        requires ended { IsTrue (is_reachable exit.now.env) }
        requires left { cell_count left.old.env ≡ cells_in self.now.classes.now self.now.outside }
        requires exit { cell_count exit.now.env ≡ cells_in self.now.classes.now self.now.inside }
        ensures value { left.new.env ≡ result_set (crossing_of self.now).result exit.now.env left.old.env }
        ensures cells { cell_count left.new.env ≡ cell_count left.old.env }
        ensures room { room_of left.new ≡ room_of left.old }
    {
        self.stands();
        self.names_seen();
        if let (Some(slot), Some(result)) = (self.slot, self.inside().result(self.routine)) {
            let itv = exit.get(self.inside().bind(result).cell).itv;
            left.set(
                self.outside().scope.bind(slot).cell,
                Val { undef: false, itv },
            );
        }
    }
}
