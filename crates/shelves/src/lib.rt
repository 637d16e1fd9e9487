// The shelf: procedures filed, submitted, claimed and released.

#![tactic(auto)]

pub mod call;
pub mod clearance;
pub mod fault;
pub mod row;
pub mod runs;
pub mod shelf;
pub mod slots;

pub use call::{Answer, Numbers, Outcome, ShelfCall};
pub use clearance::Clearance;
pub use fault::ShelfFault;
pub use runs::run;
pub use shelf::Shelf;
