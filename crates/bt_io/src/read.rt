//! Reading a source to its end, block by block.
ghost use Rattle.std.specs.Prelude.{◌≢◌, ◌+◌, ◌^◌, ◌<◌, ◌≤◌, IfErr, length, vec_items};
ghost use Rattle.bt_text.specs.Answers.{seen};
ghost use Rattle.bt_io.specs.Blocks.{Drains, ReadsOn};
ghost use Rattle.bt_io.specs.Bytes.{ReadsAll};
ghost use Rattle.bt_io.specs.Passages.{passage};
ghost use Rattle.bt_io.specs.declared.fault.ReadAll.TheVariants.{Memory};

use crate::fault::ReadAll;
use crate::source::Source;
use std::alloc::Global;

/// The most bytes that one call asks of its source.
pub const BLOCK: usize = 65536;

/// How many bytes are asked of a source of which `taken` were taken: a block, or as many as lead one past the limit
/// where these are fewer. The one past it shows that the source has too many.
fn room_for(limit: usize, taken: usize) -> usize
    requires limit { limit < 2 ^ 62 }
    requires within { taken ≤ limit }
    ensures fits { taken + result ≤ limit + 1 }
    ensures some { 0 < result }
    ensures block { result ≤ BLOCK }
{
    (limit + 1 - taken).min(BLOCK)
}

/// Reads the next block of a source behind the bytes that were read so far, and gives whether there was one: else the
/// source has ended. Afterwards `bytes` holds at most `limit` bytes, or one more where the answer is `TooLong`.
///
/// `ReadFault` comes only where the source's count of faults rose, and `TooLong` exactly where one byte past the limit was
/// taken. After `ReadFault` and `Memory` nothing was taken.
pub fn read_on<S: Source>(
    source: &mut S,
    bytes: &mut Vec<u8>,
    limit: usize,
) -> Result<bool, ReadAll>
    requires limit { limit < 2 ^ 62 }
    requires within { length bytes.old.items ≤ limit }
    ensures { ReadsOn limit (passage S.left S.faults source.old source.new)
        bytes.old.items bytes.new.items result }
{
    let mut block = [0u8; BLOCK];
    let room = room_for(limit, bytes.len());
    let piece = &mut block[..room];

    // The memory is taken first, so that want of memory loses no byte of the source.
    bytes.reserve(room)?;
    let Ok(count) = source.read(piece) else {
        return Err(ReadAll::ReadFault);
    };
    bytes.extend_from_slice(&piece[..count]).unwrap();
    if bytes.len() > limit {
        return Err(ReadAll::TooLong);
    }
    Ok(count > 0)
}

/// Reads a source to its end, of at most `limit` bytes.
///
/// `ReadFault` comes only where the source's count of faults rose, and `TooLong` exactly where one
/// byte past the limit was taken. After every other answer at most `limit` bytes were taken.
pub fn read_all<S: Source>(alloc: Global, source: &mut S, limit: usize) -> Result<Vec<u8>, ReadAll>
    requires { limit < 2 ^ 62 }
    ensures { ReadsAll limit (passage S.left S.faults source.old source.new) (seen vec_items result) }
{
    let mut bytes = Vec::new(alloc);
    loop {
        match read_on(source, &mut bytes, limit) {
            Ok(true) => {}
            Ok(false) => return Ok(bytes),
            Err(fault) => return Err(fault),
        }
    }
}

/// Reads a source to its end, of at most `limit` bytes, and keeps none of them.
///
/// `ReadFault` comes only where the source's count of faults rose, and `TooLong` exactly where one
/// byte past the limit was taken. It takes no memory, and `Memory` never comes.
pub fn drain<S: Source>(source: &mut S, limit: usize) -> Result<(), ReadAll>
    requires { limit < 2 ^ 62 }
    ensures read { Drains limit (passage S.left S.faults source.old source.new) result }
    ensures no_memory { IfErr result (λ fault. fault ≢ Memory) }
{
    let mut block = [0u8; BLOCK];
    let mut taken = 0;
    while taken <= limit {
        let room = room_for(limit, taken);
        let Ok(count) = source.read(&mut block[..room]) else {
            return Err(ReadAll::ReadFault);
        };
        if count == 0 {
            return Ok(());
        }
        taken += count;
    }
    Err(ReadAll::TooLong)
}
