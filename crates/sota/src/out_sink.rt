// The standard output as a sink.
ghost use Rattle.std.specs.Prelude.{◌≡◌};
ghost use Rattle.sota_edge.specs.Sink.{PutAnswer, SinkCause};
ghost use Rattle.sota.specs.OutSink.{OutState, Hands, out_state};

use crate::shortage::is_shortage;
use crate::writing::write_piece;
use sota_edge::{Sink, SinkError};
use std::io::Write;
use std::marker::Model;

/// Writes each piece and flushes it. A write that takes nothing of a piece is a fault, and so is a
/// flush that fails.
#[derive(Drop)]
pub struct OutSink<W: Write + Drop> {
    writer: W,
    faults: u64,
    shortages: u64,
}

impl<W: Write + Drop> Model for OutSink<W> {
    ghost Value = { OutState };

    ghost view = { λ sink. record {
      given = W.contents sink.writer;
      faults = sink.faults;
      shortages = sink.shortages;
    } };
}

impl<W: Write + Drop> OutSink<W> {
    /// A sink over this writer. Nothing is counted yet.
    pub fn new(writer: W) -> Self
        ensures { result ≡ record { given = W.contents writer; faults = 0; shortages = 0 } }
    {
        OutSink {
            writer,
            faults: 0,
            shortages: 0,
        }
    }

    /// How many puts failed.
    pub fn faults(&self) -> u64
        ensures { result ≡ self.now.faults }
    {
        self.faults
    }
}

impl<W: Write + Drop> Sink for OutSink<W> {
    ghost state = { out_state };

    fn put(&mut self, piece: &[u8]) -> Result<usize, SinkError>
        ensures answer { PutAnswer result piece.now (out_state self.old) (out_state self.new) }
        ensures cause { SinkCause result (out_state self.old) (out_state self.new) }
        ensures given { Hands result piece.now self.old.given self.new.given }
    {
        match write_piece(&mut self.writer, piece) {
            Ok(count) => Ok(count),
            Err(error) if is_shortage(&error) => {
                self.shortages = self.shortages.saturating_add(1);
                Err(SinkError::NoMemory)
            }
            Err(_) => {
                self.faults = self.faults.saturating_add(1);
                Err(SinkError::Failed)
            }
        }
    }
}
