//! Token columns on the heap, for programs: lexed from any source, and read.
#![tactic(auto)]

mod columns;

pub use columns::OwnedColumns;
