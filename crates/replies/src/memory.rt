// The reply to a line for which there was no memory. It takes none.
ghost use Rattle.std.specs.Prelude.{◌≡◌};
ghost use Rattle.tmm_model.specs.Replies.{memory_text};

use arrayvec::ArrayVec;
use itoa::Buffer;

/// The reply where there was no memory for another. It takes none.
pub fn memory_reply(line: u64) -> ArrayVec<u8, 32>
    ensures { result.items ≡ memory_text line }
{
    let mut reply = ArrayVec::new();
    let mut digits = Buffer::new();
    // at most 20 digits and 8 bytes
    let _ = reply.try_extend_from_slice(digits.format(line).as_bytes());
    let _ = reply.try_extend_from_slice(b" memory\n");
    reply
}
