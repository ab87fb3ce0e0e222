ghost use Rattle.std.specs.Prelude.{◌≡◌, ◌≤ℤ◌, pos, neg_ℤ};
ghost use Rattle.arithmetic.specs.Numbers.{IsNumber};
ghost use Rattle.interval.specs.Bounds.{IsCanonical};

/// The greatest number of the language; the least one is its negative.
const MAXINT: i64 = 2_147_483_647;

/// The numbers from `lo` to `hi`, both included. The one interval without numbers has the bounds 1 and 0.
#[derive(Clone, Copy, Debug, PartialEq, Eq)]
pub struct Itv {
    /// The least number.
    pub lo: i32,
    /// The greatest number.
    pub hi: i32,
    pub ghost lo_in_range: { IsNumber lo },
    pub ghost hi_in_range: { IsNumber hi },
    pub ghost canonical: { IsCanonical lo hi },
}

impl Itv {
    ghost use Rattle.interval.specs.Intervals.{empty, is_empty, is_in, interval, meet, join, hull, is_within};

    /// No number.
    pub const EMPTY: Itv = Itv { lo: 1, hi: 0 };

    /// All numbers of the language.
    pub const NUMBERS: Itv = Itv {
        lo: -i32::MAX,
        hi: i32::MAX,
    };

    /// The numbers of the Booleans.
    pub const BOOLEANS: Itv = Itv { lo: 0, hi: 1 };

    /// The interval without numbers, as contracts know it.
    pub(crate) fn none() -> Itv
        ensures { result ≡ empty }
    {
        Itv::EMPTY
    }

    /// The numbers of the language from `lo` to `hi`.
    pub fn between(lo: i64, hi: i64) -> Itv
        ensures { result ≡ interval lo hi }
    {
        let lo = lo.max(-MAXINT);
        let hi = hi.min(MAXINT);
        if hi < lo {
            return Itv::EMPTY;
        }
        Itv {
            lo: lo as i32,
            hi: hi as i32,
        }
    }

    /// The numbers from `lo` to `hi`, which are numbers of the language.
    fn of_numbers(lo: i32, hi: i32) -> Itv
        requires low { IsNumber lo }
        requires high { IsNumber hi }
        ensures { result ≡ interval lo hi }
    {
        if hi < lo {
            return Itv::EMPTY;
        }
        Itv { lo, hi }
    }

    /// Whether it has no number.
    pub fn is_empty(self) -> bool
        ensures { result ≡ is_empty self }
    {
        self.hi < self.lo
    }

    /// Whether `z` is one of its numbers.
    pub fn contains(self, z: i32) -> bool
        ensures { result ≡ is_in self z }
    {
        self.lo <= z && z <= self.hi
    }

    /// Whether each of its numbers is one of `range`.
    pub fn is_within(self, range: Itv) -> bool
        ensures { result ≡ is_within self range }
    {
        self.is_empty() || range.lo <= self.lo && self.hi <= range.hi
    }

    /// The numbers that both have.
    pub fn meet(self, other: Itv) -> Itv
        ensures { result ≡ meet self other }
    {
        Itv::of_numbers(self.lo.max(other.lo), self.hi.min(other.hi))
    }

    /// The least interval around the numbers of both.
    pub fn join(self, other: Itv) -> Itv
        ensures { result ≡ join self other }
    {
        if self.is_empty() {
            other
        } else if other.is_empty() {
            self
        } else {
            self.hull(other)
        }
    }

    /// The least interval around the numbers of both, where each has some.
    fn hull(self, other: Itv) -> Itv
        ensures { result ≡ hull self other }
    {
        Itv::of_numbers(self.lo.min(other.lo), self.hi.max(other.hi))
    }
}
