//! A parameter set with a counted list of parts, as a type that owns memory and has reads of its
//! own.
ghost use Rattle.std.specs.Prelude.{true};
ghost use Rattle.bitstream_io.specs.Callers.{same_error};
ghost use Rattle.bitstream_callers.specs.ParameterSet.{point_reads, set_reads};

use bitstream_io::{BitRead, BitReadExt, Bits, Error, FromBitStream, FromBitStreamUsing};
use std::alloc::Global;
use std::marker::Model;

/// A way to decode a video: its layers, and the capabilities that they need.
#[derive(Clone, Copy, Debug, PartialEq)]
pub struct OperatingPoint {
    /// A bit for each layer, below 2^12.
    pub layers: u16,
    /// The level, below 32.
    pub level: u8,
}

impl FromBitStream for OperatingPoint {
    type Error = Error;

    ghost becomes = { same_error };

    ghost reads = { point_reads };

    fn from_reader<R: BitRead>(reader: &mut R) -> Result<OperatingPoint, Error> {
        Ok(OperatingPoint {
            layers: reader.read::<Bits<12>, u16>()?,
            level: reader.read::<Bits<5>, u8>()?,
        })
    }
}

/// The parameters of a video, which come before its frames.
#[derive(Drop)]
pub struct ParameterSet {
    /// The profile, below 8.
    pub profile: u8,
    /// The ways to decode it, at most 31.
    pub points: Vec<OperatingPoint>,
}

impl Model for ParameterSet {
    ghost use Rattle.bitstream_callers.specs.Parameters.{Parameters};

    ghost Value = { Parameters };

    ghost view = { λ set. record { profile = set.profile; points = set.points.items } };
}

impl FromBitStreamUsing for ParameterSet {
    type Context = Global;

    type Error = Error;

    ghost grows = { true };

    ghost becomes = { same_error };

    ghost reads = { λ o _. set_reads o };

    fn from_reader<R: BitRead>(reader: &mut R, alloc: Global) -> Result<ParameterSet, Error> {
        let profile = reader.read::<Bits<3>, u8>()?;
        let count = reader.read::<Bits<5>, u8>()?;
        let mut points = Vec::new(alloc);
        for _ in 0..count {
            points.push(reader.parse::<OperatingPoint>()?)?;
        }
        Ok(ParameterSet { profile, points })
    }
}
