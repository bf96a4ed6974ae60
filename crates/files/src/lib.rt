// Board files: reading one record, loading a whole file into a table, and which tables some file loads to (document 01, "The board file").
//
// - `record::read_record` reads one record of a board file, `load::load` a whole file into a `Table`;
// - `accepted::is_table` tells whether some file loads to a table, which is what refusal 20 asks.
//
// What these mean is in `specs/` of the crate `board`; every public contract here is an equation with a definition there.
#![tactic(auto)]

pub mod accepted;
mod checks;
pub mod load;
mod places;
pub mod record;
