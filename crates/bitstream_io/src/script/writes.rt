//! A list of write calls on any sink.
ghost use Rattle.std.specs.Prelude.{◌≡◌, length, None};
ghost use Rattle.bitstream_number.specs.Word.{Order};
ghost use Rattle.bitstream_io.specs.Script.{write_encoders, WritesSequence, Counts};

use crate::script::write_call::WriteCall;
use bitstream_count::error::Error;
use bitstream_stream::write::BitWrite;

/// Makes all calls in order, even after one that failed, and stores the result of each call in its
/// place in `answers`: `None` if it succeeded, and otherwise its error.
///
/// The encodings of the calls that succeed are appended, each at the length reached before it. A call
/// that is rejected for its width or value, or that would exceed a counter's limit, appends nothing,
/// and the later calls are still made. At the first I/O error or failed allocation, the call
/// returns that error, and each later call returns `Failed`.
pub fn write_calls<W: BitWrite>(writer: &mut W, calls: &[WriteCall], answers: &mut [Option<Error>])
    requires { length answers.old ≡ length calls.now }
    // The write sequence of the calls is appended, up to the first I/O error or failed allocation.
    ensures appends { WritesSequence W.sink (write_encoders W.sink.limit W.sink.order calls.now)
        writer.old answers.new writer.new }
    // In either order of bits the results and the number of bits are the same, if the limit holds
    // the sum.
    ensures counts { (o : Order) → Counts W.sink (write_encoders None o calls.now)
        writer.old answers.new writer.new }
{
    for (i, call) in calls.iter().enumerate() {
        answers[i] = call.make(writer).err();
    }
}
