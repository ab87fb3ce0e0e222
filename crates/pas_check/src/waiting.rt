//! Headings that wait for their bodies.

ghost use Rattle.std.specs.Prelude.{◌≡◌, None, OnOk, Some, if◌then◌else◌, is_some};
ghost use Rattle.pas_check.specs.Blocks.{nothing_waits, waiting_of, waits, with_word};

use crate::heading::Opened;
use indexmap::IndexMap;
use std::alloc::{AllocError, Global};

/// The `forward` headings of a block whose bodies are still to come, by their names in lower case.
#[derive(Drop)]
pub struct Waiting {
    opened: IndexMap<Vec<u8>, Opened>,
}

impl Waiting {
    pub fn new(alloc: Global) -> Waiting
        ensures { waiting_of result ≡ nothing_waits }
    {
        Waiting {
            opened: IndexMap::new(alloc),
        }
    }

    /// A heading waits for the body that comes with its name.
    pub fn add(&mut self, alloc: Global, name: &[u8], opened: Opened) -> Result<(), AllocError>
        ensures { OnOk result (waiting_of self.new ≡ waits (waiting_of self.old) name.now (Some opened)) }
    {
        let key = Vec::from_slice(alloc, name)?;
        self.opened.insert(key, opened)?;
        Ok(())
    }

    /// The heading with this name and word, which waits no more.
    pub fn take(&mut self, name: &[u8], function: bool) -> Option<Opened>
        ensures taken { result ≡ with_word function (waiting_of self.old name.now) }
        ensures left { waiting_of self.new ≡ (if is_some result then waits (waiting_of self.old) name.now None else waiting_of self.old) }
    {
        if self.opened.get(name)?.function != function {
            return None;
        }
        self.opened.swap_remove(name)
    }
}
