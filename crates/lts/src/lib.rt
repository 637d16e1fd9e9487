// Procedures as finite labelled transition systems, and the sources that answer for them.

#![tactic(auto)]

pub mod action_map;
pub mod copying;
pub mod flat;
pub mod joined;
pub mod laid;
pub mod map_fault;
pub mod mapped;
pub mod procedure;
pub mod source;
pub mod steps;
pub mod stored;
pub mod system;

pub use action_map::ActionMap;
pub use copying::copied;
pub use flat::Flat;
pub use joined::Pair;
pub use laid::{Laid, Run};
pub use map_fault::MapFault;
pub use mapped::Mapped;
pub use procedure::Procedure;
pub use source::{Most, Source};
pub use steps::Steps;
pub use stored::Stored;
pub use system::System;
