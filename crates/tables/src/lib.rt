//! Networks as tables: a cell for each pair, made from records.

#![tactic(auto)]

mod cell;
mod cell_ways;
mod making;
mod questions;
mod table;

pub use crate::making::{MAX_RECORDS, check_count};
pub use crate::table::Table;
