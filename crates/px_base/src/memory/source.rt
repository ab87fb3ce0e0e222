ghost use Rattle.std.specs.Prelude.{◌≡◌, ◌≤◌, ℕ, List, [], Some, length, take, drop, min, is_err, IfOk, if◌then◌else◌};
ghost use Rattle.px_base.specs.Memory.{no_calls, is_failing, source_after};

use super::calls::CallCount;
use super::unread::Unread;
use crate::{Failed, Source};
use std::marker::Model;

/// Bytes in memory, given piece by piece, with faults at the calls that are named.
#[derive(Debug, Drop)]
pub struct MemSource {
    unread: Unread,
    calls: CallCount,
}

impl Model for MemSource {
    ghost use Rattle.px_base.specs.Memory.{SourceState};

    ghost Value = { SourceState };

    ghost view = { λ s. record { left = s.unread.left; calls = s.calls } };
}

impl MemSource {
    /// A source of these bytes. `failing` lists the numbers of the calls that fail, counted from 1.
    pub fn new(bytes: Vec<u8>, failing: Vec<u32>) -> Self
        ensures { result ≡ record { left = bytes.items; calls = no_calls failing.items } }
    {
        MemSource {
            unread: Unread::new(bytes),
            calls: CallCount::new(failing),
        }
    }
}

impl Source for MemSource {
    ghost faults = { λ s. s.calls.faults };

    ghost left = { λ s. Some s.left };

    fn read(&mut self, buf: &mut [u8]) -> Result<usize, Failed>
        ensures fails { is_err result ≡ is_failing self.old.calls }
        ensures count { IfOk result (λ n. n ≡ min (length self.old.left) (length buf.old)) }
        ensures bytes { IfOk result (λ n. take n buf.new ≡ take n self.old.left) }
        ensures after { self.new ≡ source_after self.old (length buf.old) }
    {
        self.calls.begin()?;
        Ok(self.unread.read(buf))
    }
}
