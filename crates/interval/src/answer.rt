ghost use Rattle.std.specs.Prelude.{◌≡◌};

use crate::Itv;

/// What an operator gives at intervals.
#[derive(Clone, Copy, Debug, PartialEq, Eq)]
pub struct Answer {
    /// Has each result that is no error.
    pub value: Itv,
    /// Whether no numbers of the operands make the operator's error.
    pub holds: bool,
}

impl Answer {
    ghost use Rattle.interval.specs.Answers.{always, clipped};

    /// What an operator gives that makes no error.
    pub(crate) fn always(value: Itv) -> Answer
        ensures { result ≡ always value }
    {
        Answer { value, holds: true }
    }

    /// The part of `lo..hi` in a range, and whether that is all of it.
    pub(crate) fn clipped(range: Itv, lo: i64, hi: i64) -> Answer
        ensures { result ≡ clipped range lo hi }
    {
        let (least, greatest) = (i64::from(range.lo), i64::from(range.hi));
        Answer {
            value: Itv::between(lo.max(least), hi.min(greatest)),
            holds: least <= lo && hi <= greatest,
        }
    }
}
