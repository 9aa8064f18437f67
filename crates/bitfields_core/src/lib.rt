//! Layouts of bit fields, and their meaning: packs decimal values into bit fields, counts their
//! bits, unpacks bit fields into decimal values, and repacks them.
//!
//! [`parse_layout`] parses a text as a [`Layout`]. [`pack`], [`unpack`], [`size`] and [`repack`]
//! use a layout, in either order of bits. [`run`] runs the whole program on its arguments and
//! streams. [`report`] prints a [`Fault`], which holds the reason for a failure.
//!
//! - [`laws`]: laws of layouts and values, whatever parses or packs them
#![tactic(auto)]

mod decimal;
mod fault;
mod fault_line;
mod field;
mod field_value;
mod input;
pub mod laws;
mod layout;
mod lines;
mod packing;
mod repacking;
mod running;
mod sizing;
mod strict_reading;
mod unpacking;
mod values;

pub use fault::{Fault, Reason};
pub use field::{Field, GroupSize};
pub use field_value::FieldValue;
pub use input::Input;
pub use layout::{Layout, parse_layout};
pub use packing::pack;
pub use repacking::repack;
pub use running::{report, run};
pub use sizing::size;
pub use unpacking::unpack;
