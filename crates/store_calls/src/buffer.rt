// Buffers that show what was written into them.
ghost use Rattle.std.specs.Prelude.{Decides};
ghost use Rattle.store_calls.specs.Marks.{AllMarks};

// What stands in a buffer before a call.
pub(crate) const MARK: u8 = 0xEE;

// Whether nothing but marks stands there.
pub(crate) fn untouched(buffer: &[u8]) -> bool
    ensures { Decides result (AllMarks buffer.now) }
{
    buffer.iter().all(|byte| *byte == MARK)
}
