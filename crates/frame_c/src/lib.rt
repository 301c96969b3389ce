// The frame reader for C hosts (include/co_frame.h), as a static library.
#![tactic(auto)]

ghost use Rattle.frame.specs.Export.{Exported};

// Reads a frame: 0 and the 18 numbers; 3 where it is no frame; 16 where `numbers` has no room for 18.
#[unsafe(no_mangle)]
pub extern "C" fn co_read_frame(frame: &[u8], numbers: &mut [u64]) -> u32
    ensures { Exported frame.now numbers.old result numbers.new }
{
    frame::co_read_frame(frame, numbers)
}
