//! A list of read calls on any reader.
ghost use Rattle.std.specs.Prelude.{◌≡◌, ℕ, ◌++◌, List, None, Some, length};
ghost use Rattle.std.specs.List.{All};
ghost use Rattle.bitstream_number.specs.Word.{bits as bits_of};
ghost use Rattle.bitstream_stream.specs.Sequence.{write_sequence};
ghost use Rattle.bitstream_io.specs.ReadBack.{IsCall, accepted_calls, matching_reads, StandsBefore, ReadsBack};
ghost use Rattle.bitstream_io.specs.ReadScript.{ReadsEach, ReadsSequence};
ghost use Rattle.bitstream_io.specs.Script.{write_encoders};
ghost use Rattle.bitstream_io.specs.declared.script.write_call.WriteCall.{WriteCall};

use crate::script::answers::Answer;
use crate::script::read_call::ReadCall;
use bitstream_count::error::Error;
use bitstream_stream::read::BitRead;
use std::alloc::Global;

/// Makes all calls in order, even after one that failed, and stores the result of each call in its
/// place in `answers`.
///
/// The results are the same as on the plain list of bits, however the stream is chunked, up to the
/// first I/O error or failed allocation. That call returns the error. After it, or after
/// `RunTooLong`, each call except `Align` returns `Failed`. Only `Bytes` allocates, and only for
/// bytes that the stream has.
pub fn read_calls<R: BitRead>(
    alloc: Global,
    reader: &mut R,
    calls: &[ReadCall],
    answers: &mut [Option<Result<Answer, Error>>],
)
    requires { length answers.old ≡ length calls.now }
    // Each call is made, and follows its decoder.
    ensures each { ReadsEach R.source calls.now reader.old answers.new reader.new }
    // Each call returns the result of the read sequence on the bits left.
    ensures run { (bytes : List ℕ) → (R.source.state reader.old).bytes ≡ Some bytes
        → ReadsSequence R.source calls.now
        ((R.source.state reader.old).queue ++ bits_of R.source.order bytes)
        reader.old answers.new reader.new }
    // The matching reads of accepted write calls read back the values written.
    ensures back { (written : List WriteCall) (len : ℕ) → All IsCall written
        → StandsBefore R.source written len reader.old
        → let kept = accepted_calls R.source.order written len in calls.now ≡ matching_reads kept
        → ReadsBack R.source kept (write_sequence (write_encoders None R.source.order written) len)
        reader.old answers.new reader.new }
{
    for (i, call) in calls.iter().enumerate() {
        answers[i] = Some(call.make(alloc, reader));
    }
}
