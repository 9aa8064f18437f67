//! The name and the password of a user, as a client of SOCKS sends them (RFC 1929, section 2).
//!
//! Made by `./format` from formats/socks_login.fields: edit that file and make this one anew.
ghost use Rattle.protocols.specs.SocksLogin.{socks_login_decoder, socks_login_writes, socks_login_size, socks_login_bits, Fits, becomes_socks_login};
ghost use Rattle.protocols.specs.declared.socks_login.SocksLogin.{SocksLogin};
ghost use Rattle.protocols.specs.declared.socks_login.SocksLoginError.{SocksLoginError};
ghost use Rattle.protocols.specs.declared.socks_login.SocksLoginError.TheVariants.{Reader};
ghost use Rattle.std.specs.Prelude.{◌≡◌, ◌<◌, ◌≤◌, ◌*◌, ◌++◌, ◌⊎◌, ℕ, Bool, true, List, Ok, Err, length, IfOk, IsOk};
ghost use Rattle.std.specs.declared.io.ErrorKind.TheVariants.{WriteZero};
ghost use Rattle.bitstream_io.specs.Callers.{Done, Error, Order, High, bits, write_sequence, OwnAnswer, WritesAll, AllAccepted, sequence_length, sure_answer, GrowsOwn, MayAllocate, OutOfMemory, Stream, same_error};
ghost use Rattle.bitstream_io.specs.SliceMut.{HoldsFirst, written_bytes};

use bitstream_io::{
    BE, BitRead, BitReadExt, BitReader, BitWrite, BitWriteExt, Bits, Error, FromBitStreamUsing,
    SliceMut, ToBitStream, pack_into,
};
use std::alloc::Global;
use std::marker::Model;

/// The name and the password of a user, as a client of SOCKS sends them (RFC 1929, section 2).
///
/// ```text
///  0                   1                   2                   3
///  0 1 2 3 4 5 6 7 8 9 0 1 2 3 4 5 6 7 8 9 0 1 2 3 4 5 6 7 8 9 0 1
/// +-+-+-+-+-+-+-+-+-+-+-+-+-+-+-+-+
/// |       =1      |   name_bytes  |
/// +-+-+-+-+-+-+-+-+-+-+-+-+-+-+-+-+-+-+-+-+-+-+-+-+-+-+-+-+-+-+-+-+
/// /                    name (name_bytes bytes)                    /
/// +-+-+-+-+-+-+-+-+-+-+-+-+-+-+-+-+-+-+-+-+-+-+-+-+-+-+-+-+-+-+-+-+
/// | password_bytes|
/// +-+-+-+-+-+-+-+-+-+-+-+-+-+-+-+-+-+-+-+-+-+-+-+-+-+-+-+-+-+-+-+-+
/// /                password (password_bytes bytes)                /
/// +-+-+-+-+-+-+-+-+-+-+-+-+-+-+-+-+-+-+-+-+-+-+-+-+-+-+-+-+-+-+-+-+
/// ```
#[derive(Debug, Drop)]
pub struct SocksLogin {
    /// The name.
    pub name: Vec<u8>,
    /// The password.
    pub password: Vec<u8>,
}

impl Model for SocksLogin {
    ghost use Rattle.protocols.specs.SocksLoginFields.{SocksLoginFields};

    ghost Value = { SocksLoginFields };

    ghost view = { λ value. record {
      name = value.name.items;
      password = value.password.items;
    } };
}

/// The errors of reading a `SocksLogin`.
#[derive(Debug, Drop, thiserror::Error)]
pub enum SocksLoginError {
    /// An error of the reader.
    #[error("{0}")]
    Reader(Error),
    /// The version of this message is not 1.
    #[error("the version of this message is not 1")]
    OtherVersion,
}

impl From<Error> for SocksLoginError {
    ghost from_gives = { becomes_socks_login };

    fn from(error: Error) -> SocksLoginError {
        SocksLoginError::Reader(error)
    }
}

impl SocksLogin {
    /// Reads the fields in order.
    ///
    /// # Errors
    ///
    /// `OtherVersion`, after the rejected bits have been read.
    /// `Reader(OutOfMemory)` if an allocation for a list fails. The items before the failure
    /// have been read.
    /// Otherwise the reader's errors, after which it has failed.
    pub fn read<R: BitRead>(reader: &mut R, alloc: Global) -> Result<SocksLogin, SocksLoginError>
        ensures { GrowsOwn R.source becomes_socks_login (socks_login_decoder R.source.order) reader.old result reader.new }
    {
        reader.read_const::<Bits<8>, Bits<1>, SocksLoginError>(SocksLoginError::OtherVersion)?;
        let name_bytes = reader.read::<Bits<8>, u64>()?;
        let name = reader.read_to_vec(alloc, name_bytes as usize)?;
        let password_bytes = reader.read::<Bits<8>, u64>()?;
        let password = reader.read_to_vec(alloc, password_bytes as usize)?;
        Ok(SocksLogin { name, password })
    }

    /// Parses the value at the start of `packet`.
    ///
    /// # Errors
    ///
    /// `OtherVersion` if bits are rejected.
    /// `Reader(EndOfInput)` if the bytes end before the fields do.
    /// `Reader(OutOfMemory)` if the allocation for an item of a list fails.
    pub fn parse(packet: &[u8], alloc: Global) -> Result<SocksLogin, SocksLoginError>
        ensures answer { (OwnAnswer becomes_socks_login (λ answer. answer)
            (sure_answer ((socks_login_decoder High).reads 0 (bits High packet.now))) result)
            ⊎ ((result ≡ Err (SocksLoginError.Reader OutOfMemory))
            × MayAllocate (socks_login_decoder High) 0 (bits High packet.now)) }
        ensures back { (value : SocksLogin) (more : List Bool) → Fits value
            → bits High packet.now ≡ write_sequence (socks_login_writes High value) 0 ++ more
            → (result ≡ Ok value)
            ⊎ (result ≡ Err (SocksLoginError.Reader OutOfMemory)) }
    {
        socks_login_round_trip();
        SocksLogin::read(&mut BitReader::<_, BE>::over(packet), alloc)
    }

    /// Writes the fields in order.
    ///
    /// # Errors
    ///
    /// `Checked` for a field that does not fit its bits. The fields before it have been written.
    /// Otherwise the sink's errors.
    pub fn write<W: BitWrite>(&self, writer: &mut W) -> Result<(), Error>
        ensures { WritesAll W.sink (socks_login_writes W.sink.order self.now) writer.old result writer.new }
    {
        writer.write_const::<Bits<8>, Bits<1>>()?;
        writer.write::<Bits<8>, u64>(self.name.len() as u64)?;
        writer.write_bytes(&self.name)?;
        writer.write::<Bits<8>, u64>(self.password.len() as u64)?;
        writer.write_bytes(&self.password)?;
        Ok(())
    }

    /// Writes the fields to the first bytes of a buffer, and returns what was written. The other bytes
    /// stay as they were. Does not allocate.
    ///
    /// # Errors
    ///
    /// `Checked` for the first field that does not fit its bits, however long the buffer is.
    /// `Stream(WriteZero)` if all fields fit, and the buffer is too short for the bits.
    /// After an error, the first bytes of the buffer may have changed.
    pub fn pack_into<'a>(&self, buffer: &'a mut [u8]) -> Result<SliceMut<'a>, Error>
        ensures packed { IfOk result (λ packed. bits High (written_bytes packed) ≡ socks_login_bits self.now) }
        ensures first { IfOk result (HoldsFirst buffer.entry.ghost_name buffer.old) }
        ensures accepted { IsOk result → AllAccepted (socks_login_writes High self.now) 0 }
        ensures misfit { (error : Error) → sequence_length (socks_login_writes High self.now) 0 ≡ Err error
            → result ≡ Err error }
        ensures room { Fits self.now → socks_login_size High self.now ≤ 8 * length buffer.old
            → IsOk result }
        ensures short { Fits self.now → 8 * length buffer.old < socks_login_size High self.now
            → result ≡ Err (Stream WriteZero) }
    {
        pack_into::<BE, SocksLogin>(self, buffer)
    }
}

impl FromBitStreamUsing for SocksLogin {
    type Context = Global;

    type Error = SocksLoginError;

    ghost grows = { true };

    ghost becomes = { becomes_socks_login };

    ghost reads = { λ o _. socks_login_decoder o };

    fn from_reader<R: BitRead>(
        reader: &mut R,
        alloc: Global,
    ) -> Result<SocksLogin, SocksLoginError> {
        SocksLogin::read(reader, alloc)
    }
}

impl ToBitStream for SocksLogin {
    type Error = Error;

    ghost becomes = { same_error };

    ghost writes = { socks_login_writes };

    fn to_writer<W: BitWrite>(&self, writer: &mut W) -> Result<(), Error> {
        self.write(writer)
    }
}

/// A value that fits its bits is read back as it was written, in either order of bits, at any place.
/// The read takes only the bits that were written: `socks_login_size` is their number.
pub fn socks_login_round_trip()
    ensures back { (o : Order) (value : SocksLogin) (at from : ℕ) (more : List Bool) → Fits value
        → let written = write_sequence (socks_login_writes o value) at in
        (socks_login_decoder o).reads from (written ++ more) ≡ Done (length written) (Ok (Ok value)) }
    ensures size { (o : Order) (value : SocksLogin) (at : ℕ) → Fits value
        → length (write_sequence (socks_login_writes o value) at) ≡ socks_login_size o value }
{}
