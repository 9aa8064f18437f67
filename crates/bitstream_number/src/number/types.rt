//! The ten integer types, one file each. `.ci/numbers` prints the files from the templates in
//! `tools/numbers`.

mod i128;
mod i16;
mod i32;
mod i64;
mod i8;
mod u128;
mod u16;
mod u32;
mod u64;
mod u8;
