//! Conversions between JSON and the fields of a record.
//!
//! Made by `./format --program` from ../bitstream_callers/formats/primary_header.fields: edit that file and make this one anew.
ghost use Rattle.std.specs.Prelude.{◌≤◌, IfOk, IsErr};

use serde_json::Value;
use std::alloc::{AllocError, Global};
use thiserror::Error;

/// The reasons for which JSON does not fit the format.
#[derive(Debug, Drop, Error)]
pub enum Unfit {
    /// The line is no JSON.
    #[error("{0}")]
    Json(serde_json::Error),
    /// A value does not fit: its path, and what is wrong.
    #[error("`{path}` {why}")]
    Field { path: String, why: String },
    /// An allocation failed.
    #[error("out of memory")]
    Memory,
}

impl From<AllocError> for Unfit {
    fn from(_refused: AllocError) -> Unfit {
        Unfit::Memory
    }
}

impl From<serde_json::Error> for Unfit {
    fn from(error: serde_json::Error) -> Unfit {
        Unfit::Json(error)
    }
}

/// Returns the error of a value; `what` is the rest of the message.
pub fn misfit<T: Drop>(alloc: Global, name: &str, value: &Value, what: &str) -> Result<T, Unfit>
    ensures { IsErr result }
{
    let said = value.to_string(alloc)?;
    Err(Unfit::Field {
        path: String::from_str(alloc, name)?,
        why: format!(in alloc; "is {}{what}", said.as_str())?,
    })
}

/// Refuses JSON that is no object.
pub fn check_object(alloc: Global, name: &str, value: &Value) -> Result<(), Unfit> {
    match value.as_object() {
        Some(_) => Ok(()),
        None => misfit(alloc, name, value, ": an object"),
    }
}

/// Returns an error if an object has a field that the record `kind` does not have.
pub fn check_names(alloc: Global, object: &Value, kind: &str, names: &[&str]) -> Result<(), Unfit> {
    let Some(fields) = object.as_object() else {
        return Ok(());
    };
    for name in fields.keys() {
        if !names.contains(&name.as_str()) {
            return Err(Unfit::Field {
                path: name.clone()?,
                why: format!(in alloc; "is no field of {kind}")?,
            });
        }
    }
    Ok(())
}

/// Returns the value of a field.
pub fn field<'a>(alloc: Global, object: &'a Value, name: &str) -> Result<&'a Value, Unfit> {
    match object.get(name) {
        Some(found) => Ok(found),
        None => Err(Unfit::Field {
            path: String::from_str(alloc, name)?,
            why: String::from_str(alloc, "is missing")?,
        }),
    }
}

/// Returns a bit.
pub fn boolean(alloc: Global, name: &str, value: &Value) -> Result<bool, Unfit> {
    match value.as_bool() {
        Some(bit) => Ok(bit),
        None => misfit(alloc, name, value, ": true or false"),
    }
}

/// Returns a number from `least` to `most`.
pub fn unsigned(
    alloc: Global,
    name: &str,
    value: &Value,
    least: u64,
    most: u64,
) -> Result<u64, Unfit>
    ensures { IfOk result (λ number. (least ≤ number) × (number ≤ most)) }
{
    match value.as_u64() {
        Some(number) if least <= number && number <= most => Ok(number),
        _ => {
            let what = format!(in alloc; ", and not in {least}..={most}")?;
            misfit(alloc, name, value, what.as_str())
        }
    }
}
