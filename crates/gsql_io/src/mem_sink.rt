//! A sink in memory.
ghost use Rattle.std.specs.Prelude.{◌≡◌, ℕ, ◌<◌, ◌≤◌, ◌-◌, ◌↔◌, List, [], ◌++◌, take, length, min, IsErr, is_err, IfOk, OnOk, OnErr};
ghost use Rattle.gsql_io.specs.Outside.{Rose, next_number, count_after};
ghost use Rattle.gsql_io.specs.Memory.{WriteFails};

use crate::calls::{Calls, counts_call};
use crate::inputs::Failed;
use crate::sink::Sink;
use lists::OutOfMemory;
use std::alloc::Global;
use std::marker::Model;

/// A sink in memory, with room for so many bytes. It tells what was written.
///
/// The calls of `write` are counted from 0. Those whose numbers were given fail, and so does a write of a piece that is
/// not empty where no room is left. No other call fails.
#[derive(Debug, Drop)]
pub struct MemSink {
    held: Vec<u8>,
    room: usize,
    fail_at: Calls,
    calls: u64,
    faults: u64,
}

impl Model for MemSink {
    ghost use Rattle.std.specs.Prelude.{◌≤◌, vec_len, vec_capacity};
    ghost use Rattle.gsql_io.specs.Memory.{MemoryBytes};

    ghost Value = { MemoryBytes };

    ghost view = { λ sink. record {
      written = sink.held.items;
      room = sink.room;
      fail_at = sink.fail_at;
      calls = sink.calls;
      faults = sink.faults;
    } };

    // All that there is room for was taken from the start, so a write takes no memory.
    ghost invariant = { λ sink. (vec_len sink.held ≤ sink.room) × (sink.room ≤ vec_capacity sink.held) };
}

impl MemSink {
    /// Takes memory for so many bytes. Nothing was written, and no call was made or failed.
    pub fn new(alloc: Global, fail_at: Calls, room: usize) -> Result<MemSink, OutOfMemory>
        ensures { IfOk result (λ sink. sink ≡ record {
          written = [];
          room = room;
          fail_at = fail_at;
          calls = 0;
          faults = 0;
        }) }
    {
        let held = Vec::with_capacity(alloc, room)?;
        Ok(MemSink {
            held,
            room,
            fail_at,
            calls: 0,
            faults: 0,
        })
    }

    /// The bytes that were written so far.
    pub fn bytes(&self) -> &[u8]
        ensures { result.now ≡ self.now.written }
    {
        self.held.as_slice()
    }
}

impl Sink for MemSink {
    ghost use Rattle.std.specs.Prelude.{Some};

    ghost written = { λ sink. Some sink.written };

    ghost faults = { λ sink. sink.faults };

    fn write(&mut self, piece: &[u8]) -> Result<usize, Failed>
        ensures bound { IfOk result (λ n. n ≤ length piece.now) }
        ensures some { IfOk result (λ n. 0 < length piece.now → 0 < n) }
        ensures appends { IfOk result (λ n. self.new.written ≡ self.old.written ++ take n piece.now) }
        ensures unchanged { OnErr result (self.new.written ≡ self.old.written) }

        ensures never_falls { self.old.faults ≤ self.new.faults }
        ensures stays { OnOk result (self.new.faults ≡ self.old.faults) }
        ensures rose { OnErr result (Rose self.old.faults self.new.faults) }

        // Beyond what the trait says: it takes as much of the piece as there is room for, and fails in these cases and
        // in no others.
        ensures takes { IfOk result (λ n. n ≡ min (length piece.now) (self.old.room - length self.old.written)) }
        ensures fails { IsErr result ↔ WriteFails self.old piece.now }
        ensures counts { self.new.faults ≡ count_after (is_err result) self.old.faults }
        ensures numbers { self.new.calls ≡ next_number self.old.calls }
        ensures same_room { self.new.room ≡ self.old.room }
        ensures same_fail_at { self.new.fail_at ≡ self.old.fail_at }
    {
        let failing = counts_call(&mut self.calls, &self.fail_at);
        let n = piece.len().min(self.room - self.held.len());
        if failing || (n == 0 && !piece.is_empty()) {
            self.faults = self.faults.saturating_add(1);
            return Err(Failed);
        }
        match self.held.extend_from_slice(&piece[..n]) {
            Ok(()) => Ok(n),
            Err(_) => unreachable!(),
        }
    }
}
