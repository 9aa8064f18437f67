//! Reads a byte stream unit by unit.

use super::sets::ParameterSets;
use super::{H264Error, Unit, read_unit};
use crate::at::At;
use crate::element::Element;
use crate::nal::{RefusedUnit, UnitError, Units};
use std::alloc::Global;

/// A byte stream, and the parameter sets read from it.
///
/// After a refused unit, the next call reads the unit after it.
#[derive(Drop)]
pub struct Stream<'a> {
    units: Units<'a>,
    sets: ParameterSets,
}

impl<'a> Stream<'a> {
    /// Returns a reader of the units of `bytes`.
    ///
    /// # Errors
    ///
    /// `NoStartCode` if `bytes` have no start code, and so no unit.
    pub fn over(bytes: &'a [u8]) -> Result<Stream<'a>, UnitError> {
        let units = Units::over(bytes);
        if units.is_at_end() {
            return Err(UnitError::NoStartCode);
        }
        Ok(Stream {
            units,
            sets: ParameterSets::new(),
        })
    }

    /// Returns the parameter sets that were read.
    pub fn sets(&self) -> &ParameterSets {
        &self.sets
    }

    /// Returns the bytes from the next unit on.
    pub fn rest(&self) -> &'a [u8] {
        self.units.rest()
    }

    /// Returns the number of units that were read or refused.
    pub fn units_taken(&self) -> u64 {
        self.units.taken()
    }

    /// Returns the place of the next unit's first byte in the stream, after its start code.
    pub fn place(&self) -> usize {
        self.units.place()
    }

    /// Reads the next unit and appends its elements, as [`read_unit`] does. Returns `None` after the last unit.
    ///
    /// # Errors
    ///
    /// The errors of [`read_unit`], with the place of the unit. The next call reads the next unit.
    pub fn next_unit(
        &mut self,
        alloc: Global,
        elements: &mut Vec<Element>,
    ) -> Result<Option<Unit>, RefusedUnit<H264Error>> {
        let byte = self.units.place();
        let number = self.units.taken();
        let Some(unit) = self.units.next_unit() else {
            return Ok(None);
        };
        match read_unit(alloc, &mut self.sets, unit, elements) {
            Ok(unit) => Ok(Some(unit)),
            Err(At { bit, error }) => Err(RefusedUnit {
                number,
                byte,
                bit,
                error,
            }),
        }
    }
}
