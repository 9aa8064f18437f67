//! Reads a byte stream unit by unit.

use super::sets::ParameterSets;
use super::{H265Error, Unit, read_unit};
use crate::at::At;
use crate::element::Element;
use crate::nal::{RefusedUnit, UnitError, Units};
use std::alloc::Global;

/// A byte stream, and the parameter sets read from it.
///
/// After a refused unit, the next call reads the unit after it.
#[derive(Drop)]
pub struct Stream<'a> {
    units: Units<'a>,
    sets: ParameterSets,
}

impl<'a> Stream<'a> {
    /// Returns a reader of the units of `bytes`.
    ///
    /// # Errors
    ///
    /// `NoStartCode` if `bytes` have no start code, and so no unit.
    pub fn over(bytes: &'a [u8]) -> Result<Stream<'a>, UnitError> {
        let units = Units::over(bytes);
        if units.is_at_end() {
            return Err(UnitError::NoStartCode);
        }
        Ok(Stream {
            units,
            sets: ParameterSets::new(),
        })
    }

    /// Returns the parameter sets that were read.
    pub fn sets(&self) -> &ParameterSets {
        &self.sets
    }

    /// Returns the units that are left.
    pub fn units(&self) -> &Units<'a> {
        &self.units
    }

    /// Reads the next unit and appends its elements, as [`read_unit`] does. Returns `None` after the last unit.
    ///
    /// # Errors
    ///
    /// The errors of [`read_unit`], with the place of the unit. The next call reads the next unit.
    pub fn next_unit(
        &mut self,
        alloc: Global,
        elements: &mut Vec<Element>,
    ) -> Result<Option<Unit>, RefusedUnit<H265Error>> {
        let byte = self.units.place();
        let number = self.units.taken();
        let Some(unit) = self.units.next_unit() else {
            return Ok(None);
        };
        match read_unit(alloc, &mut self.sets, unit, elements) {
            Ok(unit) => Ok(Some(unit)),
            Err(At { bit, error }) => Err(RefusedUnit {
                number,
                byte,
                bit,
                error,
            }),
        }
    }
}
