ghost use Rattle.std.specs.Prelude.{◌≡◌, ℕ, ◌<◌, true, false, map, length, replicate, slice_set};
ghost use Rattle.std.specs.List.{All};
ghost use Rattle.fixpoint.specs.Marks.{AddsMarks, has_mark};
ghost use Rattle.fixpoint.specs.Reversal.{list_at};

/// Marks of the nodes that are to be evaluated again, and the nodes that read each node.
#[derive(Drop)]
pub(crate) struct Marks<'r, 's> {
    pub(crate) read_by: &'r [Vec<u32>],
    pub(crate) stale: &'s mut [bool],
}

impl Marks<'_, '_> {
    /// Takes the mark of a node, and answers whether it had one.
    pub(crate) fn take(&mut self, node: u32) -> bool
        requires { node < length self.old.stale.now }
        ensures had { result ≡ has_mark self.old.stale.now node }
        ensures taken { self.new.stale.now ≡ slice_set self.old.stale.now node false }
        ensures stale_name { self.new.stale.ghost_name ≡ self.old.stale.ghost_name }
        ensures read_by { self.new.read_by ≡ self.old.read_by }
    {
        let had = self.stale[node as usize];
        self.stale[node as usize] = false;
        had
    }

    /// Marks the nodes that read a node.
    pub(crate) fn mark_readers(&mut self, node: u32)
        requires node { node < length self.old.read_by.now }
        requires readers { All (λ m. m < length self.old.stale.now) (list_at (map (λ v. v.items) self.old.read_by.now) node) }
        ensures added { AddsMarks (list_at (map (λ v. v.items) self.old.read_by.now) node) self.old.stale.now self.new.stale.now }
        ensures size { length self.new.stale.now ≡ length self.old.stale.now }
        ensures stale_name { self.new.stale.ghost_name ≡ self.old.stale.ghost_name }
        ensures read_by { self.new.read_by ≡ self.old.read_by }
    {
        let read_by = self.read_by;
        for &reader in &read_by[node as usize] {
            self.stale[reader as usize] = true;
        }
    }
}

/// Marks all nodes.
pub(crate) fn mark_all(stale: &mut [bool])
    ensures { stale.new ≡ replicate (length stale.old) true }
{
    stale.fill(true);
}
