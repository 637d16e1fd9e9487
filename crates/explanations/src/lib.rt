// Two procedures compared, and the answer told to the author of a rejected version.

#![tactic(auto)]

mod difference;
mod explanation;
mod formula;
mod given;
mod readable;
mod side;
mod summary;
mod told;
mod version;
mod way;

pub use explanation::explain;
pub use given::explain_given;
pub use listings::action_offset;
