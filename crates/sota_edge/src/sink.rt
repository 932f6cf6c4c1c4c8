// A sink for the output.
ghost use Rattle.std.specs.Prelude.{OnOk, OnErr};
ghost use Rattle.sota_edge.specs.Sink.{SinkState, SinkCause, PutAnswer, Wrote, WrotePrefix};

/// Why a put failed.
#[derive(Clone, Copy, Debug, PartialEq, Eq)]
pub enum SinkError {
    /// The outside failed. The sink's count of faults rose.
    Failed,
    /// No memory. The sink's count of shortages rose.
    NoMemory,
}

/// Takes the output, a piece at a time.
pub trait Sink {
    /// What was written, where that is known, and what the sink has counted.
    ghost state: { Self → SinkState };

    /// Takes the first bytes of the piece, and answers how many: at least one, unless the piece is
    /// empty. After an error some first bytes of the piece may have been written.
    fn put(&mut self, piece: &[u8]) -> Result<usize, SinkError>
        ensures answer { PutAnswer result piece.now (state self.old) (state self.new) }
        ensures cause { SinkCause result (state self.old) (state self.new) };
}

/// Writes all the bytes, in as many puts as it takes. After an error the first of them were
/// written; the error is that of a put.
pub fn put_all<O: Sink>(out: &mut O, bytes: &[u8]) -> Result<(), SinkError>
    ensures ok { OnOk result (Wrote bytes.now (O.state out.old) (O.state out.new)) }
    ensures err { OnErr result (WrotePrefix bytes.now (O.state out.old) (O.state out.new)) }
    ensures cause { SinkCause result (O.state out.old) (O.state out.new) }
{
    let mut done = 0;
    while done < bytes.len() {
        let count = out.put(&bytes[done..])?;
        done += count;
    }
    Ok(())
}
