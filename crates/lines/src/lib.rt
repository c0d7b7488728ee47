// The lines that the programs print: one for each action, one for the call's end. Text for which there is no room is cut.
#![tactic(auto)]

pub mod line;
pub mod text;
