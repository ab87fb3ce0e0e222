ghost use Rattle.std.specs.Prelude.{◌≡◌, [], length, take, drop, min};

use std::marker::Model;

/// Bytes, of which those from a place on are still to be read.
#[derive(Debug, Drop)]
pub struct Unread {
    bytes: Vec<u8>,
    at: usize,
}

impl Model for Unread {
    ghost use Rattle.std.specs.Prelude.{◌≤◌, drop, vec_len};
    ghost use Rattle.px_base.specs.Memory.{Cursor};

    ghost Value = { Cursor };

    ghost view = { λ u. record { bytes = u.bytes.items; left = drop u.at u.bytes.items } };

    ghost invariant = { λ u. u.at ≤ vec_len u.bytes };
}

/// Copies bytes to the start of the buffer, as many as there are and fit, and answers how many.
pub fn copy_start(from: &[u8], to: &mut [u8]) -> usize
    ensures count { result ≡ min (length from.now) (length to.old) }
    ensures copied { take result to.new ≡ take result from.now }
{
    let count = from.len().min(to.len());
    to[..count].copy_from_slice(&from[..count]);
    count
}

impl Unread {
    /// All these bytes are to be read.
    pub fn new(bytes: Vec<u8>) -> Self
        ensures { result ≡ record { bytes = bytes.items; left = bytes.items } }
    {
        Unread { bytes, at: 0 }
    }

    /// Moves the next bytes to the start of the buffer, as many as there are and fit, and answers how many.
    pub fn read(&mut self, buf: &mut [u8]) -> usize
        ensures count { result ≡ min (length self.old.left) (length buf.old) }
        ensures piece { take result buf.new ≡ take result self.old.left }
        ensures left { self.new ≡ record self.old { left = drop result self.old.left } }
    {
        let count = copy_start(&self.bytes[self.at..], buf);
        self.at += count;
        count
    }

    /// Begins again at the first byte.
    pub fn rewind(&mut self)
        ensures { self.new ≡ record self.old { left = self.old.bytes } }
    {
        self.at = 0;
    }

    /// Leaves nothing to be read.
    pub fn finish(&mut self)
        ensures { self.new ≡ record self.old { left = [] } }
    {
        self.at = self.bytes.len();
    }
}
