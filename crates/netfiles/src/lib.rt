//! Network files read into tables and into lists of records, and written from them.

#![tactic(auto)]

mod reading;
mod writing;

pub use crate::reading::{NetworkFile, read_network, read_table};
pub use crate::writing::write_network;
