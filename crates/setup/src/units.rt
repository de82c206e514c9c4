// Frames and bytes of memory.
ghost use Rattle.std.specs.Prelude.{◌≡◌, ◌*◌, ◌/◌, ◌≤◌};
ghost use Rattle.frames.specs.Units.{frame};
ghost use Rattle.rules.specs.Limits.{most_end, page_bytes};

use frames::Frame;
use rules::Record;

// The frame that a byte of memory is in.
pub(crate) fn frame_of_byte(at: u64) -> Frame
    ensures { result ≡ frame (at / page_bytes) }
{
    Frame(at / Record::PAGE_BYTES)
}

// The first byte of a frame.
pub(crate) fn byte_of_frame(frame: Frame) -> u64
    requires { frame.0 ≤ most_end }
    ensures { result ≡ frame.0 * page_bytes }
{
    frame.0 * Record::PAGE_BYTES
}
