//! A measurement of a vehicle's telemetry at one time, in 48 bits.
ghost use Rattle.bitstream_format.specs.Format.{Fits, RoundTripLaw, LengthLaw, packed_bits};
ghost use Rattle.bitstream_format.specs.Places.{ThereLaw, ShortLaw};
ghost use Rattle.bitstream_format.specs.Examples.Sample.{sample, sample_places};
ghost use Rattle.bitstream_format.specs.declared.examples.sample.Sample.{Sample};
ghost use Rattle.std.specs.Prelude.{◌≡◌, ◌<◌, ◌≤◌, ◌++◌, Bool, List, Ok, Err, length, take};
ghost use Rattle.bitstream_io.specs.Callers.{EndOfInput, High, bits, Reads, WritesAll, sure_answer};

use bitstream_io::{BE, BitRead, BitReadExt, BitReader, BitWrite, BitWriteExt, Bits, Error};

/// One measurement of a vehicle's telemetry.
#[derive(Clone, Copy, Debug, PartialEq)]
pub struct Sample {
    /// Seconds since the start. Below 2^20.
    pub seconds: u32,
    /// True if the engine runs.
    pub running: bool,
    /// Degrees Celsius. From -256 to 255.
    pub temperature: i16,
    /// Thousandths of a bar. Below 2^18.
    pub pressure: u32,
}

impl Sample {
    /// Reads the fields in order.
    ///
    /// # Errors
    ///
    /// The errors of the reader, after which it has failed.
    pub fn read<R: BitRead>(reader: &mut R) -> Result<Sample, Error>
        ensures { Reads R.source (sample.read R.source.order) reader.old result reader.new }
    {
        let seconds = reader.read::<Bits<20>, u32>()?;
        let running = reader.read_bit()?;
        let temperature = reader.read::<Bits<9>, i16>()?;
        let pressure = reader.read::<Bits<18>, u32>()?;
        Ok(Sample {
            seconds,
            running,
            temperature,
            pressure,
        })
    }

    /// Returns the value at the start of `packet`.
    ///
    /// # Errors
    ///
    /// `EndOfInput` for fewer than 6 bytes.
    pub fn parse(packet: &[u8]) -> Result<Sample, Error>
        ensures answer { result ≡ sure_answer ((sample.read High).reads 0 (bits High packet.now)) }
        ensures there { 6 ≤ length packet.now → result ≡ Ok (sample_places.at High (take 48 (bits High packet.now))) }
        ensures short { length packet.now < 6 → result ≡ Err EndOfInput }
        ensures back { (value : Sample) (more : List Bool) → Fits sample value
            → bits High packet.now ≡ packed_bits sample value ++ more → result ≡ Ok value }
    {
        Sample::read(&mut BitReader::<_, BE>::over(packet))
    }

    /// Writes the fields in order.
    ///
    /// # Errors
    ///
    /// `Checked` for a field that does not fit its bits. The fields before it have been written. Otherwise, the errors
    /// of the writer.
    pub fn write<W: BitWrite>(&self, writer: &mut W) -> Result<(), Error>
        ensures { WritesAll W.sink (sample.write W.sink.order self.now) writer.old result writer.new }
    {
        writer.write::<Bits<20>, u32>(self.seconds)?;
        writer.write_bit(self.running)?;
        writer.write::<Bits<9>, i16>(self.temperature)?;
        writer.write::<Bits<18>, u32>(self.pressure)?;
        Ok(())
    }
}

/// States that what was written is read back, in either order of bits, at any position, and that a read takes only
/// its bits. If 48 bits are left, the fields are read from their places. Fewer bits are incomplete.
pub fn sample_laws()
    ensures round_trip { RoundTripLaw sample }
    ensures length { LengthLaw sample }
    ensures there { ThereLaw sample_places }
    ensures short { ShortLaw sample_places }
{}
