//! Network files: reading them, judging their text, writing them anew.

#![tactic(auto)]

mod fields;
pub mod judging;
pub mod reading;
pub mod rewriting;
