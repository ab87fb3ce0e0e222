ghost use Rattle.std.specs.Prelude.{◌≡◌, ◌+◌, ◌-◌, ◌<◌, ◌≤◌, ◌++◌, [], Some, length, take, min, is_err, IfOk, OnErr};
ghost use Rattle.px_base.specs.Memory.{no_calls, taken_of, write_fails, sink_after};

use super::calls::CallCount;
use crate::{Failed, Sink};
use std::alloc::{AllocError, Global};
use std::marker::Model;

/// A sink that keeps what it takes: so many bytes in all, at most so many in one call, with faults at the calls that
/// are named.
#[derive(Debug, Drop)]
pub struct MemSink {
    bytes: Vec<u8>,
    room: usize,
    most: usize,
    calls: CallCount,
}

impl Model for MemSink {
    ghost use Rattle.std.specs.Prelude.{vec_len, vec_capacity};
    ghost use Rattle.px_base.specs.Memory.{SinkState, IsRoomy};

    ghost Value = { SinkState };

    ghost view = { λ s. record { taken = s.bytes.items; room = s.room; most = s.most; calls = s.calls } };

    ghost invariant = { λ s. IsRoomy (vec_len s.bytes) s.room (vec_capacity s.bytes) s.most };
}

impl MemSink {
    /// An empty sink with room for this many bytes, of which one call takes at most `most`. `failing` lists the numbers
    /// of the calls that fail, counted from 1.
    pub fn new(
        alloc: Global,
        room: usize,
        most: usize,
        failing: Vec<u32>,
    ) -> Result<MemSink, AllocError>
        requires { 1 ≤ most }
        ensures { IfOk result (λ s. s ≡ record { taken = []; room = room; most = most; calls = no_calls failing.items }) }
    {
        Ok(MemSink {
            bytes: Vec::with_capacity(alloc, room)?,
            room,
            most,
            calls: CallCount::new(failing),
        })
    }

    /// The bytes that were taken.
    pub fn bytes(&self) -> &[u8]
        ensures { result.now ≡ self.now.taken }
    {
        &self.bytes
    }
}

impl Sink for MemSink {
    ghost faults = { λ s. s.calls.faults };

    ghost taken = { λ s. Some s.taken };

    fn write(&mut self, bytes: &[u8]) -> Result<usize, Failed>
        ensures fails { is_err result ≡ write_fails self.old bytes.now }
        ensures count { IfOk result (λ n. n ≡ taken_of self.old bytes.now) }
        ensures after { self.new ≡ sink_after self.old bytes.now }
    {
        self.calls.begin()?;
        let count = bytes.len().min(self.most).min(self.room - self.bytes.len());
        if count == 0 && !bytes.is_empty() {
            return Err(self.calls.fault());
        }
        self.bytes.extend_from_slice(&bytes[..count]).unwrap();
        Ok(count)
    }
}
