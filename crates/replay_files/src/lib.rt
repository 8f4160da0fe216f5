// The files of the programs `replay` and `resume`: their arguments, and what they say and print.
#![tactic(auto)]

pub mod arguments;
pub mod files;
pub mod printed;
