//! The header of a message of STUN (RFC 8489, section 5).
//!
//! Made by `./format` from formats/stun_header.fields: edit that file and make this one anew.
ghost use Rattle.protocols.specs.StunHeader.{stun_header_decoder, stun_header_writes, stun_header_bits, stun_header_at, Fits, becomes_stun_header, const_at_0, const_at_32};
ghost use Rattle.protocols.specs.declared.stun_header.StunHeader.{StunHeader};
ghost use Rattle.protocols.specs.declared.stun_header.StunHeaderError.{StunHeaderError};
ghost use Rattle.protocols.specs.declared.stun_header.StunHeaderError.TheVariants.{Reader, NoStun, NoCookie};
ghost use Rattle.std.specs.Prelude.{◌≡◌, ◌≢◌, ◌<◌, ◌≤◌, ◌++◌, ℕ, Bool, List, Ok, Err, length, IfOk, IsOk};
ghost use Rattle.std.specs.declared.io.ErrorKind.TheVariants.{WriteZero};
ghost use Rattle.bitstream_io.specs.Callers.{Done, Error, EndOfInput, Order, High, bits, write_sequence, ReadsOwn, OwnAnswer, WritesAll, AllAccepted, sequence_length, sure_answer, Stream, same_error};
ghost use Rattle.bitstream_io.specs.SliceMut.{HoldsFirst, written_bytes};

use bitstream_io::{
    BE, BitRead, BitReadExt, BitReader, BitWrite, BitWriteExt, Bits, Error, FromBitStream,
    SliceMut, ToBitStream, pack_into,
};

/// The header of a message of STUN (RFC 8489, section 5).
///
/// ```text
///  0                   1                   2                   3
///  0 1 2 3 4 5 6 7 8 9 0 1 2 3 4 5 6 7 8 9 0 1 2 3 4 5 6 7 8 9 0 1
/// +-+-+-+-+-+-+-+-+-+-+-+-+-+-+-+-+-+-+-+-+-+-+-+-+-+-+-+-+-+-+-+-+
/// | =0|            kind           |             length            |
/// +-+-+-+-+-+-+-+-+-+-+-+-+-+-+-+-+-+-+-+-+-+-+-+-+-+-+-+-+-+-+-+-+
/// |                           =554869826                          |
/// +-+-+-+-+-+-+-+-+-+-+-+-+-+-+-+-+-+-+-+-+-+-+-+-+-+-+-+-+-+-+-+-+
/// |                          id (3 rows)                          |
/// +-+-+-+-+-+-+-+-+-+-+-+-+-+-+-+-+-+-+-+-+-+-+-+-+-+-+-+-+-+-+-+-+
/// ```
#[derive(Clone, Copy, Debug, PartialEq)]
pub struct StunHeader {
    /// The method and the class of the message. Below 2^14.
    pub kind: u16,
    /// The number of bytes after the header.
    pub length: u16,
    /// The transaction.
    pub id: [u8; 12],
}

/// The errors of reading a `StunHeader`.
#[derive(Debug, Drop, thiserror::Error)]
pub enum StunHeaderError {
    /// An error of the reader.
    #[error("{0}")]
    Reader(Error),
    /// The first two bits are not 0.
    #[error("the first two bits are not 0")]
    NoStun,
    /// The magic cookie is not 0x2112A442.
    #[error("the magic cookie is not 0x2112A442")]
    NoCookie,
}

impl From<Error> for StunHeaderError {
    ghost from_gives = { becomes_stun_header };

    fn from(error: Error) -> StunHeaderError {
        StunHeaderError::Reader(error)
    }
}

impl StunHeader {
    /// The number of bits before each line of the description.
    pub const PLACES: [u64; 5] = [0, 2, 16, 32, 64];

    /// Reads the fields in order.
    ///
    /// # Errors
    ///
    /// `NoStun` or `NoCookie`, after the rejected bits have been read.
    /// Otherwise the reader's errors, after which it has failed.
    pub fn read<R: BitRead>(reader: &mut R) -> Result<StunHeader, StunHeaderError>
        ensures { ReadsOwn R.source becomes_stun_header (stun_header_decoder R.source.order) reader.old result reader.new }
    {
        reader.read_const::<Bits<2>, Bits<0>, StunHeaderError>(StunHeaderError::NoStun)?;
        let kind = reader.read::<Bits<14>, u16>()?;
        let length_ = reader.read::<Bits<16>, u16>()?;
        reader.read_const::<Bits<32>, Bits<554869826>, StunHeaderError>(StunHeaderError::NoCookie)?;
        let id = reader.read_to_bytes::<[u8; 12]>()?;
        Ok(StunHeader {
            kind,
            length: length_,
            id,
        })
    }

    /// Parses the value at the start of `packet`.
    ///
    /// # Errors
    ///
    /// `NoStun` or `NoCookie` if bits are rejected.
    /// `Reader(EndOfInput)` for fewer than 20 bytes.
    pub fn parse(packet: &[u8]) -> Result<StunHeader, StunHeaderError>
        ensures answer { OwnAnswer becomes_stun_header (λ answer. answer)
            (sure_answer ((stun_header_decoder High).reads 0 (bits High packet.now))) result }
        ensures there { 20 ≤ length packet.now → const_at_0 (bits High packet.now) ≡ 0
            → const_at_32 (bits High packet.now) ≡ 554869826
            → result ≡ Ok (stun_header_at (bits High packet.now)) }
        ensures short { length packet.now < 20
            → (1 ≤ length packet.now → const_at_0 (bits High packet.now) ≡ 0)
            → (8 ≤ length packet.now → const_at_32 (bits High packet.now) ≡ 554869826)
            → result ≡ Err (StunHeaderError.Reader EndOfInput) }
        ensures no_stun { 1 ≤ length packet.now → const_at_0 (bits High packet.now) ≢ 0
            → result ≡ Err (StunHeaderError.NoStun) }
        ensures no_cookie { 8 ≤ length packet.now → const_at_0 (bits High packet.now) ≡ 0
            → const_at_32 (bits High packet.now) ≢ 554869826
            → result ≡ Err (StunHeaderError.NoCookie) }
        ensures back { (value : StunHeader) (more : List Bool) → Fits value
            → bits High packet.now ≡ stun_header_bits value ++ more → result ≡ Ok value }
    {
        stun_header_round_trip();
        StunHeader::read(&mut BitReader::<_, BE>::over(packet))
    }

    /// Writes the fields in order.
    ///
    /// # Errors
    ///
    /// `Checked` for a field that does not fit its bits. The fields before it have been written.
    /// Otherwise the sink's errors.
    pub fn write<W: BitWrite>(&self, writer: &mut W) -> Result<(), Error>
        ensures { WritesAll W.sink (stun_header_writes W.sink.order self.now) writer.old result writer.new }
    {
        writer.write_const::<Bits<2>, Bits<0>>()?;
        writer.write::<Bits<14>, u16>(self.kind)?;
        writer.write::<Bits<16>, u16>(self.length)?;
        writer.write_const::<Bits<32>, Bits<554869826>>()?;
        writer.write_bytes(&self.id)?;
        Ok(())
    }

    /// Writes the fields to the first bytes of a buffer, and returns what was written. The other bytes
    /// stay as they were. Does not allocate.
    ///
    /// # Errors
    ///
    /// `Checked` for the first field that does not fit its bits, however long the buffer is.
    /// `Stream(WriteZero)` if all fields fit, and the buffer has fewer than 20 bytes.
    /// After an error, the first bytes of the buffer may have changed.
    pub fn pack_into<'a>(&self, buffer: &'a mut [u8]) -> Result<SliceMut<'a>, Error>
        ensures packed { IfOk result (λ packed. bits High (written_bytes packed) ≡ stun_header_bits self.now) }
        ensures first { IfOk result (HoldsFirst buffer.entry.ghost_name buffer.old) }
        ensures accepted { IsOk result → AllAccepted (stun_header_writes High self.now) 0 }
        ensures misfit { (error : Error) → sequence_length (stun_header_writes High self.now) 0 ≡ Err error
            → result ≡ Err error }
        ensures room { Fits self.now → 20 ≤ length buffer.old → IsOk result }
        ensures short { Fits self.now → length buffer.old < 20 → result ≡ Err (Stream WriteZero) }
    {
        pack_into::<BE, StunHeader>(self, buffer)
    }
}

impl FromBitStream for StunHeader {
    type Error = StunHeaderError;

    ghost becomes = { becomes_stun_header };

    ghost reads = { stun_header_decoder };

    fn from_reader<R: BitRead>(reader: &mut R) -> Result<StunHeader, StunHeaderError> {
        StunHeader::read(reader)
    }
}

impl ToBitStream for StunHeader {
    type Error = Error;

    ghost becomes = { same_error };

    ghost writes = { stun_header_writes };

    fn to_writer<W: BitWrite>(&self, writer: &mut W) -> Result<(), Error> {
        self.write(writer)
    }
}

/// A value that fits its bits is read back as it was written, in either order of bits, at any place.
/// The read takes only the bits that were written: 160 bits.
pub fn stun_header_round_trip()
    ensures back { (o : Order) (value : StunHeader) (at from : ℕ) (more : List Bool) → Fits value
        → let written = write_sequence (stun_header_writes o value) at in
        (stun_header_decoder o).reads from (written ++ more) ≡ Done (length written) (Ok (Ok value)) }
    ensures size { (o : Order) (value : StunHeader) (at : ℕ) → Fits value
        → length (write_sequence (stun_header_writes o value) at) ≡ 160 }
{}
