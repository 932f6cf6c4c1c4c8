// A sink in memory that never fails.
ghost use Rattle.std.specs.Prelude.{◌≡◌, [], length, IfOk, OnErr};
ghost use Rattle.sota_edge.specs.Sink.{PutAnswer, SinkCause};
ghost use Rattle.sota_edge.specs.SureSink.{SureSinkState, sure_sink_state};

use crate::{Sink, SinkError};
use std::alloc::Global;
use std::marker::Model;

/// Takes whole pieces. What was written is known, and it never answers Failed.
#[derive(Drop)]
pub struct SureSink {
    text: Vec<u8>,
    shortages: u64,
}

impl Model for SureSink {
    ghost Value = { SureSinkState };

    ghost view = { λ sink. record { text = sink.text.items; shortages = sink.shortages } };
}

impl SureSink {
    /// Nothing is written.
    pub fn new(alloc: Global) -> Self
        ensures { result ≡ record { text = []; shortages = 0 } }
    {
        SureSink {
            text: Vec::new(alloc),
            shortages: 0,
        }
    }

    /// What was written.
    pub fn written(&self) -> &[u8]
        ensures { result.now ≡ self.now.text }
    {
        &self.text
    }
}

impl Sink for SureSink {
    ghost state = { sure_sink_state };

    fn put(&mut self, piece: &[u8]) -> Result<usize, SinkError>
        ensures answer { PutAnswer result piece.now
            (sure_sink_state self.old) (sure_sink_state self.new) }
        ensures cause { SinkCause result (sure_sink_state self.old) (sure_sink_state self.new) }
        ensures whole { IfOk result (λ count. count ≡ length piece.now) }
        ensures none { OnErr result (self.new.text ≡ self.old.text) }
    {
        match self.text.extend_from_slice(piece) {
            Ok(()) => Ok(piece.len()),
            Err(_) => {
                self.shortages = self.shortages.saturating_add(1);
                Err(SinkError::NoMemory)
            }
        }
    }
}
