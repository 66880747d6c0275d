//! Printed text on its way to a sink.
ghost use Rattle.std.specs.Prelude.{OnErr, OnOk};
ghost use Rattle.std.specs.List.{flat_map};
ghost use Rattle.std.specs.Io.KnownBytes.{Appends};
ghost use Rattle.ts_store.specs.Streams.{AppendsFront, StreamCause};

use ts_base::ByteList;
use ts_query::Printed;
use ts_store::{Failed, Sink, write_all};

/// Appends all of a printed text to a sink, piece by piece. Where the sink fails, a front of the text was
/// appended.
pub(crate) fn write_text<K: Sink>(sink: &mut K, text: &Printed) -> Result<(), Failed>
    ensures whole { OnOk result (Appends (K.contents sink.old) (K.contents sink.new) text.now) }
    ensures front { OnErr result (AppendsFront (K.contents sink.old) (K.contents sink.new) text.now) }
    ensures cause { StreamCause (K.faults sink.old) (K.faults sink.new) result }
{
    let parts = text.parts();
    write_pieces(sink, parts.full)?;
    write_all(sink, parts.last)
}

// Appends all pieces of a text.
fn write_pieces<K: Sink>(sink: &mut K, pieces: &[ByteList]) -> Result<(), Failed>
    ensures whole { OnOk result (Appends (K.contents sink.old) (K.contents sink.new) (flat_map (λ piece. piece) pieces.now)) }
    ensures front { OnErr result (AppendsFront (K.contents sink.old) (K.contents sink.new) (flat_map (λ piece. piece) pieces.now)) }
    ensures cause { StreamCause (K.faults sink.old) (K.faults sink.new) result }
{
    for piece in pieces {
        write_all(sink, piece.as_slice())?;
    }
    Ok(())
}
