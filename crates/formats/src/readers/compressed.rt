//! The members of gzip.

use crate::unit::{Fault, ReadUnits, Step, Unit};
use anyhow::{Error, anyhow};
use bitstream_formats::at::At;
use bitstream_formats::deflate::{Members, Remainder};
use std::alloc::Global;
use std::io::{Read, Write};

/// The members of a gzip file.
#[derive(Drop)]
pub struct GzipUnits<R: Read> {
    members: Members<R>,
    ended: bool,
}

impl<R: Read> GzipUnits<R> {
    /// Returns the members of a reader.
    pub fn over(alloc: Global, reader: R) -> Result<GzipUnits<R>, Error>
    where
        R: Drop,
    {
        Ok(GzipUnits {
            members: Members::over(alloc, reader)?,
            ended: false,
        })
    }
}

impl<R: Read> ReadUnits for GzipUnits<R> {
    fn next_unit<W: Write>(
        &mut self,
        alloc: Global,
        unit: &mut Unit,
        out: &mut W,
    ) -> Result<Step, Error> {
        let start = self.members.place();
        unit.begin("member", start / 8);
        if self.ended {
            return Ok(Step::End);
        }
        match self.members.next_member(out, &mut unit.elements) {
            Ok(true) => Ok(Step::Read),
            Ok(false) => {
                self.ended = true;
                if self.members.remainder() != Some(Remainder::Other) {
                    return Ok(Step::End);
                }
                let text = "bytes after the last member were ignored";
                Ok(Step::Warned(Fault::of(alloc, 0, text)?))
            }
            Err(At { bit: _, error }) if error.is_from_outside() => Err(anyhow!("{error}")),
            Err(At { bit, error }) => {
                self.ended = true;
                let bit = bit.saturating_sub(start);
                Ok(Step::Refused(Fault::of(alloc, bit, error)?))
            }
        }
    }

    fn bytes_done(&self) -> u64 {
        self.members.place() / 8
    }
}
