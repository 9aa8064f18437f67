//! Heartbeats, and samples of a vehicle's telemetry in vectors: plain, or in frames that begin with
//! their length.
ghost use Rattle.std.specs.Prelude.{◌≡◌, ◌<◌, ◌^◌, Err, IfErr, IfOk, IsOk, length};
ghost use Rattle.bitstream_io.specs.Callers.{write_sequence, sequence_length, High, align, bits};
ghost use Rattle.bitstream_callers.specs.Sample.{Fits, sample_bits, sample_writes};
ghost use Rattle.bitstream_callers.specs.Telemetry.{IsMisfitOrMemory, framed_bits, heartbeat_writes};

use crate::sample::Sample;
use bitstream_io::{BE, BitWrite, BitWriteExt, BitWriter, Bits, BitsWritten, Error, Growing, Lent};
use std::alloc::Global;

/// Returns the byte of a heartbeat: its number, and a bit that is 1 if all is well.
///
/// # Errors
///
/// `Checked` for a number of 128 or more, or `OutOfMemory`.
pub fn heartbeat(alloc: Global, number: u8, well: bool) -> Result<Vec<u8>, Error>
    ensures packed { IfOk result (λ bytes. bits High bytes.items ≡ write_sequence (heartbeat_writes number well) 0) }
    ensures fits { IsOk result → number < 2 ^ 7 }
    ensures refused { IfErr result (IsMisfitOrMemory (heartbeat_writes number well)) }
{
    let mut writer = BitWriter::<_, BE>::new(Growing::new(Vec::new(alloc)));
    writer.write::<Bits<7>, u8>(number)?;
    writer.write_bit(well)?;
    writer.byte_align()?;
    Ok(writer.into_writer().into_vec())
}

impl Sample {
    /// Returns the six bytes of a sample.
    ///
    /// # Errors
    ///
    /// `Checked` for the first field that does not fit its bits, or `OutOfMemory`.
    pub fn pack(&self, alloc: Global) -> Result<Vec<u8>, Error>
        ensures packed { IfOk result (λ bytes. bits High bytes.items ≡ sample_bits self.now) }
        ensures fits { IsOk result → Fits self.now }
        ensures refused { IfErr result (IsMisfitOrMemory (sample_writes High self.now)) }
    {
        let mut writer = BitWriter::<_, BE>::new(Growing::new(Vec::new(alloc)));
        self.write(&mut writer)?;
        writer.byte_align()?;
        Ok(writer.into_writer().into_vec())
    }

    /// Returns the number of bits of a sample, without writing it.
    ///
    /// # Errors
    ///
    /// `Checked` for the first field that does not fit its bits.
    pub fn bits(&self) -> Result<u8, Error>
        ensures count { IfOk result
            (λ bits. bits ≡ length (write_sequence (sample_writes High self.now) 0)) }
        ensures fits { IsOk result → Fits self.now }
        ensures refused { IfErr result
            (λ error. sequence_length (sample_writes High self.now) 0 ≡ Err error) }
    {
        let mut counter = BitsWritten::<u8>::new();
        self.write(&mut counter)?;
        Ok(counter.into_written())
    }

    /// Returns the bytes of a frame: one byte for the number of bits of the sample, and then the sample.
    ///
    /// # Errors
    ///
    /// `Checked` for the first field that does not fit its bits, or `OutOfMemory`.
    pub fn frame(&self, alloc: Global) -> Result<Vec<u8>, Error>
        ensures packed { IfOk result (λ bytes. bits High bytes.items ≡ framed_bits self.now) }
        ensures fits { IsOk result → Fits self.now }
        ensures refused { IfErr result (IsMisfitOrMemory (sample_writes High self.now)) }
    {
        let size = self.bits()?;
        let mut bytes = Growing::new(Vec::new(alloc));
        let mut writer = BitWriter::<_, BE>::new(Lent::new(&mut bytes));
        writer.write::<Bits<8>, u8>(size)?;
        self.write(&mut writer)?;
        writer.byte_align()?;
        Ok(bytes.into_vec())
    }
}
