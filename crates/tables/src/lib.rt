// Table files: records of a length, a kind and a body; and the procedure that they draw.

#![tactic(auto)]

mod draft;
pub mod fault;
pub mod laws;
pub mod record;
pub mod records;
mod step;
pub mod table;
#[cfg(test)]
mod tests;

pub use fault::{RecordFault, TableFault};
pub use record::Record;
pub use records::Records;
pub use table::Table;
