// A procedure as it is kept in a slot: at most 128 states and 512 steps.

use crate::laid::Laid;

// A plain value. Where it is read as a source, the steps of each state stand behind those of the states below it.
pub type Procedure = Laid<128, 512>;
