ghost use Rattle.std.specs.Prelude.{◌≡◌, ◌<◌, [], Some, None, ⊤, length, take, min, is_err, IfOk, IfSome, IfNone};
ghost use Rattle.px_base.specs.Memory.{no_calls, is_failing, file_named, pick_fails, shelf_picked, shelf_after};
ghost use Rattle.px_base.specs.Named.{named, bytes_of};

use super::calls::CallCount;
use super::unread::copy_start;
use crate::{Failed, Shelf};
use std::marker::Model;

/// Files in memory, with faults at the calls that are named.
#[derive(Debug, Drop)]
pub struct MemShelf {
    files: Vec<(String, Vec<u8>)>,
    picked: Option<usize>,
    at: usize,
    calls: CallCount,
}

impl Model for MemShelf {
    ghost use Rattle.px_base.specs.Memory.{ShelfState};
    ghost use Rattle.px_base.specs.Named.{named, rest_of, IsInRange};

    ghost Value = { ShelfState };

    ghost view = { λ s. record { files = named s.files.items; left = rest_of s.files.items s.picked s.at; calls = s.calls } };

    ghost invariant = { λ s. IsInRange s.files.items s.picked s.at };
}

impl MemShelf {
    /// A shelf of these files; of two with one name the first counts. `failing` lists the numbers of the calls that
    /// fail, counted from 1; `pick` counts as a call.
    pub fn new(files: Vec<(String, Vec<u8>)>, failing: Vec<u32>) -> Self
        ensures { result ≡ record { files = named files.items; left = []; calls = no_calls failing.items } }
    {
        MemShelf {
            files,
            picked: None,
            at: 0,
            calls: CallCount::new(failing),
        }
    }
}

/// The index of the first file with this name.
#[tactic(auto, using(crate::proofs::Files::file_named_from))]
fn position_of(files: &[(String, Vec<u8>)], name: &str) -> Option<usize>
    ensures found { IfSome result (λ i. (i < length files.now) × (file_named (named files.now) name.now ≡ Some (bytes_of files.now i))) }
    ensures missing { IfNone result (file_named (named files.now) name.now ≡ None) }
{
    for (i, file) in files.iter().enumerate() {
        if file.0.as_str() == name {
            return Some(i);
        }
    }
    None
}

impl Shelf for MemShelf {
    ghost faults = { λ s. s.calls.faults };

    ghost may_ask = { λ _ _. ⊤ };

    ghost file = { λ s name. Some (file_named s.files name) };

    ghost left = { λ s. Some s.left };

    fn pick(&mut self, name: &str) -> Result<(), Failed>
        ensures fails { is_err result ≡ pick_fails self.old name.now }
        ensures after { self.new ≡ shelf_picked self.old name.now }
    {
        self.picked = None;
        self.calls.begin()?;
        self.picked = position_of(&self.files, name);
        self.at = 0;
        if self.picked.is_none() {
            return Err(self.calls.fault());
        }
        Ok(())
    }

    fn read(&mut self, buf: &mut [u8]) -> Result<usize, Failed>
        ensures fails { is_err result ≡ is_failing self.old.calls }
        ensures count { IfOk result (λ n. n ≡ min (length self.old.left) (length buf.old)) }
        ensures bytes { IfOk result (λ n. take n buf.new ≡ take n self.old.left) }
        ensures after { self.new ≡ shelf_after self.old (length buf.old) }
    {
        self.calls.begin()?;
        let Some(file) = self.picked else {
            return Ok(0);
        };
        let count = copy_start(&self.files[file].1[self.at..], buf);
        self.at += count;
        Ok(count)
    }
}
