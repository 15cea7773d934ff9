//! Writing whole texts to a sink.
ghost use Rattle.bt_io.specs.Bytes.{WritesText, joined};
ghost use Rattle.bt_io.specs.Passages.{passage};

use crate::fault::WriteFault;
use crate::sink::Sink;

/// Writes a whole text.
///
/// Where the sink fails, which its count of faults shows, a proper prefix of the text was written.
pub fn write_all_of<K: Sink>(sink: &mut K, text: &[u8]) -> Result<(), WriteFault>
    ensures { WritesText (passage K.held K.faults sink.old sink.new) text.now result }
{
    let mut at = 0;
    while at < text.len() {
        let Ok(count) = sink.write(&text[at..]) else {
            return Err(WriteFault);
        };
        at += count;
    }
    Ok(())
}

/// Writes pieces of a text, one behind the other, without memory.
///
/// Where the sink fails, which its count of faults shows, a proper prefix of the text was written.
pub fn write_pieces<K: Sink>(sink: &mut K, pieces: &[&[u8]]) -> Result<(), WriteFault>
    ensures { WritesText (passage K.held K.faults sink.old sink.new) (joined pieces.now) result }
{
    for piece in pieces {
        write_all_of(sink, piece)?;
    }
    Ok(())
}
