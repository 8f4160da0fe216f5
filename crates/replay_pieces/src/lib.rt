// What the programs `replay` and `resume` do with a log, apart from their files: a piece is fed, and a state has its lines.
#![tactic(auto)]

pub mod lines;
pub mod turn;
