//! A measurement of a wheel's sensor: a unary number, numbers of variable width, and a prefix code.
ghost use Rattle.std.specs.Prelude.{◌≡◌, ◌++◌, ℕ, Bool, List, Ok, IfOk, length};
ghost use Rattle.bitstream_io.specs.Callers.{Done, Reads, sure_answer, write_sequence, WritesAll, Order, High, bits};
ghost use Rattle.bitstream_io.specs.HuffmanTree.{tree_of};
ghost use Rattle.bitstream_callers.specs.declared.sensor.Measurement.{Measurement};
ghost use Rattle.bitstream_callers.specs.Sensor.{Fits, measurement_decoder, measurement_writes, state_tree};

use bitstream_io::huffman::HuffmanTree;
use bitstream_io::{BE, BitRead, BitReadExt, BitReader, BitWrite, BitWriteExt, Bits, Error};
use std::alloc::{AllocError, Global};

/// The motion of a wheel.
#[derive(Clone, Copy, Debug, PartialEq, Eq)]
pub enum State {
    /// It does not turn.
    Idle,
    /// It turns forwards.
    Forward,
    /// It turns backwards.
    Backward,
    /// It slows down.
    Braking,
}

/// A prefix code of the motions.
pub type StateCode = HuffmanTree<State, Global>;

/// A measurement at one time.
#[derive(Clone, Copy, Debug, PartialEq)]
pub struct Measurement {
    /// The number of measurements lost before this one.
    pub missed: u32,
    /// The distance since the start.
    pub distance: u32,
    /// The turn since the last measurement. It is negative if the wheel turned backwards.
    pub turn: i16,
    /// The motion of the wheel.
    pub state: State,
}

/// Makes the code of the motions. The more frequent motions have the shorter code words.
///
/// # Errors
///
/// `AllocError` if an allocation fails.
pub fn state_code(alloc: Global) -> Result<StateCode, AllocError>
    ensures { IfOk result (λ code. tree_of code ≡ state_tree) }
{
    let idle = HuffmanTree::leaf(alloc, State::Idle)?;
    let forward = HuffmanTree::leaf(alloc, State::Forward)?;
    let backward = HuffmanTree::leaf(alloc, State::Backward)?;
    let braking = HuffmanTree::leaf(alloc, State::Braking)?;
    let rare = HuffmanTree::node(backward, braking)?;
    HuffmanTree::node(idle, HuffmanTree::node(forward, rare)?)
}

impl Measurement {
    /// Reads a measurement.
    ///
    /// # Errors
    ///
    /// The errors of the reader. `VariableWidthOverflow` for a number that is too large for its type,
    /// and `RedundantGroup` for a number with a redundant group.
    pub fn read<R: BitRead>(code: &StateCode, reader: &mut R) -> Result<Measurement, Error>
        requires { tree_of code.now ≡ state_tree }
        ensures { Reads R.source (measurement_decoder R.source.order) reader.old result reader.new }
    {
        Ok(Measurement {
            missed: reader.read_unary::<Bits<0>>()?,
            distance: reader.read_vbr::<Bits<4>, u32>()?,
            turn: reader.read_vbr::<Bits<5>, i16>()?,
            state: reader.read_huffman(code)?,
        })
    }

    /// Parses the measurement at the start of a packet.
    ///
    /// # Errors
    ///
    /// The errors of `read`. `EndOfInput` is the only error of the stream.
    pub fn parse(code: &StateCode, packet: &[u8]) -> Result<Measurement, Error>
        requires { tree_of code.now ≡ state_tree }
        ensures answer { result
            ≡ sure_answer ((measurement_decoder High).reads 0 (bits High packet.now)) }
        ensures back { (measurement : Measurement) (more : List Bool) → Fits measurement
            → bits High packet.now ≡ write_sequence (measurement_writes High measurement) 0 ++ more
            → result ≡ Ok measurement }
    {
        measurements_round_trip();
        Measurement::read(code, &mut BitReader::<_, BE>::over(packet))
    }

    /// Writes a measurement.
    ///
    /// # Errors
    ///
    /// The errors of the sink.
    pub fn write<W: BitWrite>(&self, code: &StateCode, writer: &mut W) -> Result<(), Error>
        requires { tree_of code.now ≡ state_tree }
        ensures { WritesAll W.sink (measurement_writes W.sink.order self.now)
            writer.old result writer.new }
    {
        writer.write_unary::<Bits<0>>(self.missed)?;
        writer.write_vbr::<Bits<4>, u32>(self.distance)?;
        writer.write_vbr::<Bits<5>, i16>(self.turn)?;
        writer.write_huffman(code, self.state)
    }
}

/// A measurement is read back as it was written, in either order of bits, at any place.
pub fn measurements_round_trip()
    ensures { (o : Order) (measurement : Measurement) (at from : ℕ) (more : List Bool)
        → Fits measurement
        → let word = write_sequence (measurement_writes o measurement) at in
        (measurement_decoder o).reads from (word ++ more) ≡ Done (length word) (Ok measurement) }
{}
