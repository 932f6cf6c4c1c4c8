// A sink in memory whose puts fail as planned.
ghost use Rattle.std.specs.Prelude.{◌≡◌, ◌≤◌, [], length, min, IfOk, OnErr, IsErrOf, IsTrue};
ghost use Rattle.sota_edge.specs.Counts.{counted};
ghost use Rattle.sota_edge.specs.Sink.{PutAnswer, SinkCause};
ghost use Rattle.sota_edge.specs.MemoryDesk.{is_listed};
ghost use Rattle.sota_edge.specs.MemorySink.{MemorySinkState, memory_sink_state};

use crate::listed::count_call;
use crate::{Sink, SinkError, SureSink};
use std::alloc::Global;
use std::marker::Model;

/// Takes at most `chunk` bytes at a time, and has a list of the puts that fail. What was written is
/// known.
#[derive(Drop)]
pub struct MemorySink {
    sure: SureSink,
    chunk: u32,
    fails: Vec<u32>,
    puts: u64,
    faults: u64,
}

impl Model for MemorySink {
    ghost Value = { MemorySinkState };

    ghost view = { λ sink. record {
      text = sink.sure.text;
      chunk = sink.chunk;
      fails = sink.fails.items;
      puts = sink.puts;
      faults = sink.faults;
      shortages = sink.sure.shortages;
    } };

    ghost invariant = { λ sink. 1 ≤ sink.chunk };
}

impl MemorySink {
    /// Nothing is written. `fails` lists the numbers of the puts that fail, counted from 1.
    pub fn new(alloc: Global, chunk: u32, fails: Vec<u32>) -> Self
        requires { 1 ≤ chunk }
        ensures { result ≡ record {
          text = [];
          chunk = chunk;
          fails = fails.items;
          puts = 0;
          faults = 0;
          shortages = 0;
        } }
    {
        MemorySink {
            sure: SureSink::new(alloc),
            chunk,
            fails,
            puts: 0,
            faults: 0,
        }
    }

    /// What was written.
    pub fn written(&self) -> &[u8]
        ensures { result.now ≡ self.now.text }
    {
        self.sure.written()
    }
}

impl Sink for MemorySink {
    ghost state = { memory_sink_state };

    fn put(&mut self, piece: &[u8]) -> Result<usize, SinkError>
        ensures answer { PutAnswer result piece.now
            (memory_sink_state self.old) (memory_sink_state self.new) }
        ensures cause { SinkCause result (memory_sink_state self.old) (memory_sink_state self.new) }

        // As many bytes as fit are taken, and none after an error.
        ensures most { IfOk result (λ count. count ≡ min self.old.chunk (length piece.now)) }
        ensures none { OnErr result (self.new.text ≡ self.old.text) }

        // Only the puts that are listed fail, and each of them does.
        ensures only_listed { IsErrOf result SinkError.Failed →
            IsTrue (is_listed self.old.fails self.new.puts) }
        ensures listed { IsTrue (is_listed self.old.fails self.new.puts) →
            IsErrOf result SinkError.Failed }
        ensures puts { self.new.puts ≡ counted self.old.puts }
        ensures chunk { self.new.chunk ≡ self.old.chunk }
        ensures fails { self.new.fails ≡ self.old.fails }
    {
        if count_call(&mut self.puts, &self.fails) {
            self.faults = self.faults.saturating_add(1);
            return Err(SinkError::Failed);
        }
        let count = piece.len().min(self.chunk as usize);
        self.sure.put(&piece[..count])
    }
}
