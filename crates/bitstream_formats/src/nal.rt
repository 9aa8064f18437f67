//! NAL units, the parts of a stream of H.264 or H.265: their separation in a byte stream, emulation
//! prevention bytes, and the elements that both formats share.

use bitstream_io::Error;

mod emulation;
mod golomb;
mod refused;
mod signal;
mod trailing;
mod units;

pub use emulation::{emulation_round_trip, remove_emulation};
pub(crate) use golomb::{read_se, read_ue};
pub use refused::RefusedUnit;
pub(crate) use signal::read_signal;
pub(crate) use trailing::{check_delimiter, last_one, read_trailing_bits};
pub use units::Units;

/// The reason why a unit is refused, whatever its contents are.
#[derive(Debug, Drop, thiserror::Error)]
pub enum UnitError {
    /// The bits were not read, or an allocation failed.
    #[error("{0}")]
    Reader(Error),
    /// The stream has no start code.
    #[error("no start code")]
    NoStartCode,
    /// The unit has no byte.
    #[error("an empty unit")]
    EmptyUnit,
    /// The first bit of the unit is not 0.
    #[error("the forbidden bit is set")]
    Forbidden,
    /// The bit `rbsp_stop_one_bit` at the end of a unit's contents is 0 or missing.
    #[error("rbsp_stop_one_bit is not 1")]
    NoStopBit,
    /// A bit after `rbsp_stop_one_bit` is 1.
    #[error("a bit after rbsp_stop_one_bit is 1")]
    BitAfterStop,
}

impl From<Error> for UnitError {
    fn from(error: Error) -> UnitError {
        UnitError::Reader(error)
    }
}
