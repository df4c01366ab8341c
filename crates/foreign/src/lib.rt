// The functions of the library as plain ones; crate `foreign_c` has them for C and Rust under the same names, with the same clauses.
// An answer crosses as its number, with a report beside it (crate `foreign_report`).
#![tactic(auto)]

pub mod check;
pub mod convert;
pub mod cue;
pub mod encode;
pub mod evaluate;
pub mod form;
pub mod list;
pub mod load;
pub mod read;
pub mod run;
pub mod shortest;
