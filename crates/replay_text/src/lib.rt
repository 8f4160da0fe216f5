// Lines of text as they grow, and the reading of a size.
#![tactic(auto)]

pub mod line;
pub mod size;
