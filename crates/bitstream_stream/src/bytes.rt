//! Readers and writers of whole bytes.

pub mod byte_read;
pub mod byte_reader;
pub mod byte_write;
pub mod byte_writer;
