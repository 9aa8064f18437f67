//! The units of each format.

pub mod audio;
pub mod compressed;
pub mod containers;
pub mod h265;
pub mod messages;
pub mod video;
