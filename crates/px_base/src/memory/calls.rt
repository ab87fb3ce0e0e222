ghost use Rattle.std.specs.Prelude.{◌≡◌, ◌==◌, is_err};
ghost use Rattle.std.specs.List.{list_any};
ghost use Rattle.px_base.specs.Memory.{no_calls, one_more, is_failing, after_call};

use crate::Failed;
use std::marker::Model;

/// Which calls of an object fail, and how many calls and faults there were.
#[derive(Debug, Drop)]
pub struct CallCount {
    failing: Vec<u32>,
    made: u64,
    faults: u64,
}

impl Model for CallCount {
    ghost use Rattle.px_base.specs.Memory.{Calls};

    ghost Value = { Calls };

    ghost view = { λ c. record { failing = c.failing.items; made = c.made; faults = c.faults } };
}

fn is_listed(numbers: &[u32], number: u64) -> bool
    ensures { result ≡ list_any (λ x. x == number) numbers.now }
{
    numbers.iter().any(|x| u64::from(*x) == number)
}

impl CallCount {
    pub fn new(failing: Vec<u32>) -> Self
        ensures { result ≡ no_calls failing.items }
    {
        CallCount {
            failing,
            made: 0,
            faults: 0,
        }
    }

    /// Counts a call, and its fault if it is one of those that fail.
    pub fn begin(&mut self) -> Result<(), Failed>
        ensures failing { is_err result ≡ is_failing self.old }
        ensures counted { self.new ≡ after_call self.old (is_failing self.old) }
    {
        let number = self.made.saturating_add(1);
        self.made = number;
        if is_listed(&self.failing, number) {
            return Err(self.fault());
        }
        Ok(())
    }

    /// Counts a fault of the call that has begun.
    pub fn fault(&mut self) -> Failed
        ensures { self.new ≡ record self.old { faults = one_more self.old.faults } }
    {
        self.faults = self.faults.saturating_add(1);
        Failed
    }
}
