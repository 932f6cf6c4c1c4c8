// Making outputs: a file is stored, and then a line is written.
ghost use Rattle.std.specs.Prelude.{◌∷◌, [], IfOk, ◌≡◌, option_to_list};
ghost use Rattle.sota_app.specs.Outputs.{Ends, FileEnds, LineEnds};
ghost use Rattle.sota_app.specs.Replies.{outputs_of, reply_output, some_refused};

use crate::reply::{NamedFile, Reply};
use crate::status::Status;
use crate::stop::Stop;
use crate::voice::Voice;
use sota_edge::{Desk, Sink, put_all};
use sota_text::TextOut;
use std::alloc::Global;

/// Stores a file.
fn store_file<D: Desk>(alloc: Global, file: &NamedFile, desk: &mut D) -> Result<(), Stop>
    ensures { FileEnds result file.now (D.state desk.old) (D.state desk.new) }
{
    desk.store(alloc, file.name.as_str(), file.bytes.as_slice())?;
    Ok(())
}

/// Writes a line.
pub fn write_line<O: Sink>(line: &TextOut, out: &mut O) -> Result<(), Stop>
    ensures { LineEnds result line.now (O.state out.old) (O.state out.new) }
{
    write_bytes(line.as_bytes(), out)
}

/// Writes the last line of a call, which ends with this status.
pub fn write_last<O: Sink>(line: &TextOut, status: Status, out: &mut O) -> Result<Status, Stop>
    ensures line { LineEnds result line.now (O.state out.old) (O.state out.new) }
    ensures status { IfOk result (λ given. given ≡ status) }
{
    write_line(line, out)?;
    Ok(status)
}

/// Writes the bytes of a line.
fn write_bytes<O: Sink>(line: &[u8], out: &mut O) -> Result<(), Stop>
    ensures { LineEnds result line.now (O.state out.old) (O.state out.new) }
{
    put_all(out, line)?;
    Ok(())
}

/// Stores the file of a reply, where it has one, and then writes its line. The line is made first,
/// so that no want of memory comes between the two.
fn make_output<D: Desk, O: Sink>(
    alloc: Global,
    voice: &Voice,
    reply: &Reply,
    desk: &mut D,
    out: &mut O,
) -> Result<(), Stop>
    ensures { Ends result (reply_output voice.now reply.now ∷ [])
        (D.state desk.old) (D.state desk.new) (O.state out.old) (O.state out.new) }
{
    let line = voice.spell(alloc, reply)?;
    if let Some(file) = reply.file() {
        store_file(alloc, file, desk)?;
    }
    write_bytes(&line, out)
}

/// Makes the output of a reply, if there is one, and answers whether it is a refusal.
pub fn make_reply<D: Desk, O: Sink>(
    alloc: Global,
    voice: &Voice,
    reply: Option<Reply>,
    desk: &mut D,
    out: &mut O,
) -> Result<bool, Stop>
    ensures made { Ends result (outputs_of voice.now (option_to_list reply))
        (D.state desk.old) (D.state desk.new) (O.state out.old) (O.state out.new) }
    ensures refused { IfOk result (λ refused. refused ≡ some_refused (option_to_list reply)) }
{
    let Some(reply) = reply else {
        return Ok(false);
    };
    make_output(alloc, voice, &reply, desk, out)?;
    Ok(reply.is_refusal())
}
