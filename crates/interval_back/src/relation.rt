ghost use Rattle.std.specs.Prelude.{◌≡◌};
ghost use Rattle.interval_back.specs.Backward.{opposite};

/// How two numbers compare.
#[derive(Clone, Copy)]
pub enum Relation {
    Equal,
    Different,
    Less,
    AtMost,
    Greater,
    AtLeast,
}

impl Relation {
    /// The one that holds where this one doesn't.
    pub fn opposite(self) -> Relation
        ensures { result ≡ opposite self }
    {
        match self {
            Relation::Equal => Relation::Different,
            Relation::Different => Relation::Equal,
            Relation::Less => Relation::AtLeast,
            Relation::AtMost => Relation::Greater,
            Relation::Greater => Relation::AtMost,
            Relation::AtLeast => Relation::Less,
        }
    }
}
