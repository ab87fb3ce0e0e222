ghost use Rattle.std.specs.Prelude.{◌≡◌, [], Some, None, Ok, ⊤, length, take, drop, min, IsOk, IfOk};

use super::unread::Unread;
use crate::{Failed, Shelf, Sink, Source};
use std::marker::Model;

/// A shelf that has the same bytes under every name and never fails.
#[derive(Debug, Drop)]
pub struct SureShelf {
    unread: Unread,
}

impl Model for SureShelf {
    ghost use Rattle.px_base.specs.Memory.{Cursor};

    ghost Value = { Cursor };

    ghost view = { λ s. s.unread };
}

impl SureShelf {
    /// A shelf of these bytes. Nothing is left to be read before the first `pick`.
    pub fn new(bytes: Vec<u8>) -> Self
        ensures { result ≡ record { bytes = bytes.items; left = [] } }
    {
        let mut unread = Unread::new(bytes);
        unread.finish();
        SureShelf { unread }
    }
}

impl Shelf for SureShelf {
    ghost faults = { λ _. 0 };

    ghost may_ask = { λ _ _. ⊤ };

    ghost file = { λ s _. Some (Some s.bytes) };

    ghost left = { λ s. Some s.left };

    fn pick(&mut self, _name: &str) -> Result<(), Failed>
        ensures never_fails { IsOk result }
        ensures after { self.new ≡ record self.old { left = self.old.bytes } }
    {
        self.unread.rewind();
        Ok(())
    }

    fn read(&mut self, buf: &mut [u8]) -> Result<usize, Failed>
        ensures count { result ≡ Ok (min (length self.old.left) (length buf.old)) }
        ensures bytes { IfOk result (λ n. take n buf.new ≡ take n self.old.left) }
        ensures after { self.new ≡ record self.old { left = drop (length buf.old) self.old.left } }
    {
        Ok(self.unread.read(buf))
    }
}

/// A source that never fails.
#[derive(Debug, Drop)]
pub struct SureSource {
    unread: Unread,
}

impl Model for SureSource {
    ghost use Rattle.std.specs.Prelude.{List, ℕ};

    ghost Value = { List ℕ };

    ghost view = { λ s. s.unread.left };
}

impl SureSource {
    /// A source of these bytes.
    pub fn new(bytes: Vec<u8>) -> Self
        ensures { result ≡ bytes.items }
    {
        SureSource {
            unread: Unread::new(bytes),
        }
    }
}

impl Source for SureSource {
    ghost faults = { λ _. 0 };

    ghost left = { λ s. Some s };

    fn read(&mut self, buf: &mut [u8]) -> Result<usize, Failed>
        ensures count { result ≡ Ok (min (length self.old) (length buf.old)) }
        ensures bytes { IfOk result (λ n. take n buf.new ≡ take n self.old) }
        ensures after { self.new ≡ drop (length buf.old) self.old }
    {
        Ok(self.unread.read(buf))
    }
}

/// A sink that takes the whole of every piece, keeps none of it and never fails.
#[derive(Clone, Copy, Debug, Default)]
pub struct SureSink;

impl SureSink {
    pub fn new() -> Self {
        SureSink
    }
}

impl Sink for SureSink {
    ghost faults = { λ _. 0 };

    ghost taken = { λ _. None };

    fn write(&mut self, bytes: &[u8]) -> Result<usize, Failed>
        ensures { result ≡ Ok (length bytes.now) }
    {
        Ok(bytes.len())
    }
}
