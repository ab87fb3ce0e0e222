//! What becomes of the verdicts on the checks of a point, one after the other.
ghost use Rattle.std.specs.Prelude.{◌≡◌};

/// Takes verdicts in order.
#[derive(Debug, Drop)]
pub(crate) struct Tally {
    /// How many verdicts come before the one that the first mark is for.
    pub before: usize,
    /// How many marks have had their verdict.
    pub marked: usize,
    /// Whether all checks so far hold.
    pub all_hold: bool,
}

impl Tally {
    ghost use Rattle.abstract_expr.specs.Tallies.{after_verdict, after_verdict_if, fresh, tallied};

    /// Before any verdict.
    pub fn new(before: usize) -> Tally
        ensures { result ≡ fresh before }
    {
        Tally {
            before,
            marked: 0,
            all_hold: true,
        }
    }

    /// The same, where there is a check.
    pub fn add_if(&mut self, marks: &mut [bool], is_check: bool, holds: bool)
        ensures { tallied self.new marks.new ≡ after_verdict_if is_check (tallied self.old marks.old) holds }
    {
        if is_check {
            self.add(marks, holds);
        }
    }

    /// The next check holds, or may fail and then its mark is put, if it has one.
    pub fn add(&mut self, marks: &mut [bool], holds: bool)
        ensures { tallied self.new marks.new ≡ after_verdict (tallied self.old marks.old) holds }
    {
        self.all_hold = self.all_hold && holds;
        if self.before > 0 {
            self.before -= 1;
        } else if self.marked < marks.len() {
            marks[self.marked] |= !holds;
            self.marked += 1;
        }
    }
}
