//! A measurement of a vehicle's telemetry at one time.
//!
//! Made by `./format` from formats/sample.fields: edit that file and make this one anew.
ghost use Rattle.bitstream_callers.specs.Sample.{sample_decoder, sample_writes, sample_bits, sample_at, Fits};
ghost use Rattle.bitstream_callers.specs.declared.sample.Sample.{Sample};
ghost use Rattle.std.specs.Prelude.{◌≡◌, ◌<◌, ◌≤◌, ◌++◌, ℕ, Bool, List, Ok, Err, length, IfOk, IsOk};
ghost use Rattle.std.specs.declared.io.ErrorKind.TheVariants.{WriteZero};
ghost use Rattle.bitstream_io.specs.Callers.{Done, Error, EndOfInput, Order, High, bits, write_sequence, Reads, WritesAll, sequence_length, sure_answer, Stream, same_error, plain_reads};
ghost use Rattle.bitstream_io.specs.SliceMut.{HoldsFirst, written_bytes};

use bitstream_io::{
    BE, BitRead, BitReadExt, BitReader, BitWrite, BitWriteExt, Bits, Error, FromBitStream,
    SliceMut, ToBitStream, pack_into,
};

/// A measurement of a vehicle's telemetry at one time.
///
/// ```text
///  0                   1                   2                   3
///  0 1 2 3 4 5 6 7 8 9 0 1 2 3 4 5 6 7 8 9 0 1 2 3 4 5 6 7 8 9 0 1
/// +-+-+-+-+-+-+-+-+-+-+-+-+-+-+-+-+-+-+-+-+-+-+-+-+-+-+-+-+-+-+-+-+
/// |                seconds                |r|   temperature   |   |
/// +-+-+-+-+-+-+-+-+-+-+-+-+-+-+-+-+-+-+-+-+-+-+-+-+-+-+-+-+-+-+-+-+
/// |            pressure           |
/// +-+-+-+-+-+-+-+-+-+-+-+-+-+-+-+-+
/// ```
#[derive(Clone, Copy, Debug, PartialEq)]
pub struct Sample {
    /// Seconds since the start. Below 2^20.
    pub seconds: u32,
    /// True if the engine runs.
    pub running: bool,
    /// Degrees Celsius. From -256 to 255.
    pub temperature: i16,
    /// Thousandths of a bar. Below 2^18.
    pub pressure: u32,
}

impl Sample {
    /// The number of bits before each line of the description.
    pub const PLACES: [u64; 4] = [0, 20, 21, 30];

    /// Reads the fields in order.
    ///
    /// # Errors
    ///
    /// The reader's errors, after which it has failed.
    pub fn read<R: BitRead>(reader: &mut R) -> Result<Sample, Error>
        ensures { Reads R.source (sample_decoder R.source.order) reader.old result reader.new }
    {
        let seconds = reader.read::<Bits<20>, u32>()?;
        let running = reader.read_bit()?;
        let temperature = reader.read::<Bits<9>, i16>()?;
        let pressure = reader.read::<Bits<18>, u32>()?;
        Ok(Sample {
            seconds,
            running,
            temperature,
            pressure,
        })
    }

    /// Parses the value at the start of `packet`.
    ///
    /// # Errors
    ///
    /// `EndOfInput` for fewer than 6 bytes.
    pub fn parse(packet: &[u8]) -> Result<Sample, Error>
        ensures answer { result ≡ sure_answer ((sample_decoder High).reads 0 (bits High packet.now)) }
        ensures there { 6 ≤ length packet.now → result ≡ Ok (sample_at (bits High packet.now)) }
        ensures short { length packet.now < 6 → result ≡ Err EndOfInput }
        ensures back { (value : Sample) (more : List Bool) → Fits value
            → bits High packet.now ≡ sample_bits value ++ more → result ≡ Ok value }
    {
        sample_round_trip();
        Sample::read(&mut BitReader::<_, BE>::over(packet))
    }

    /// Writes the fields in order.
    ///
    /// # Errors
    ///
    /// `Checked` for a field that does not fit its bits. The fields before it have been written.
    /// Otherwise the sink's errors.
    pub fn write<W: BitWrite>(&self, writer: &mut W) -> Result<(), Error>
        ensures { WritesAll W.sink (sample_writes W.sink.order self.now) writer.old result writer.new }
    {
        writer.write::<Bits<20>, u32>(self.seconds)?;
        writer.write_bit(self.running)?;
        writer.write::<Bits<9>, i16>(self.temperature)?;
        writer.write::<Bits<18>, u32>(self.pressure)?;
        Ok(())
    }

    /// Writes the fields to the first bytes of a buffer, and returns what was written. The other bytes
    /// stay as they were. Does not allocate.
    ///
    /// # Errors
    ///
    /// `Checked` for the first field that does not fit its bits, however long the buffer is.
    /// `Stream(WriteZero)` if all fields fit, and the buffer has fewer than 6 bytes.
    /// After an error, the first bytes of the buffer may have changed.
    pub fn pack_into<'a>(&self, buffer: &'a mut [u8]) -> Result<SliceMut<'a>, Error>
        ensures packed { IfOk result (λ packed. bits High (written_bytes packed) ≡ sample_bits self.now) }
        ensures first { IfOk result (HoldsFirst buffer.entry.ghost_name buffer.old) }
        ensures fits { IsOk result → Fits self.now }
        ensures misfit { (error : Error) → sequence_length (sample_writes High self.now) 0 ≡ Err error
            → result ≡ Err error }
        ensures room { Fits self.now → 6 ≤ length buffer.old → IsOk result }
        ensures short { Fits self.now → length buffer.old < 6 → result ≡ Err (Stream WriteZero) }
    {
        pack_into::<BE, Sample>(self, buffer)
    }
}

impl FromBitStream for Sample {
    type Error = Error;

    ghost becomes = { same_error };

    ghost reads = { λ o. plain_reads (sample_decoder o) };

    fn from_reader<R: BitRead>(reader: &mut R) -> Result<Sample, Error> {
        Sample::read(reader)
    }
}

impl ToBitStream for Sample {
    type Error = Error;

    ghost becomes = { same_error };

    ghost writes = { sample_writes };

    fn to_writer<W: BitWrite>(&self, writer: &mut W) -> Result<(), Error> {
        self.write(writer)
    }
}

/// A value that fits its bits is read back as it was written, in either order of bits, at any place.
/// The read takes only the bits that were written: 48 bits.
pub fn sample_round_trip()
    ensures back { (o : Order) (value : Sample) (at from : ℕ) (more : List Bool) → Fits value
        → let written = write_sequence (sample_writes o value) at in
        (sample_decoder o).reads from (written ++ more) ≡ Done (length written) (Ok value) }
    ensures size { (o : Order) (value : Sample) (at : ℕ) → Fits value
        → length (write_sequence (sample_writes o value) at) ≡ 48 }
{}
