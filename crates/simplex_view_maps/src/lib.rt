//! Sorted containers of views: a finite map, a finite map by terms, and sets as maps to `()`.
#![tactic(auto)]

pub mod by_term;
pub mod entries;
mod rows;
mod run;
mod term_table;
pub mod tracked;
