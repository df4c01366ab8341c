// The functions that C and Rust link (tools/staticlib): each calls the function of `foreign` and says the same. A slice crosses as its address and its length, and no two slices of a call may overlap.
// An answer crosses as its number, with a report beside it (crate `foreign_report`).
#![tactic(auto)]

mod check;
mod convert;
mod cue;
mod encode;
mod evaluate;
mod form;
mod list;
mod load;
mod read;
mod run;
mod shortest;
