//! Fixed windows that turn by themselves: each holds the latest keys of all that came.
#![tactic(auto)]

mod latest;
mod with_tables;

pub use latest::Latest;
pub use with_tables::WithTables;
