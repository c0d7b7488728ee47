// The turns of a trace, with the two drivers' words side by side and what a line says to the turn that awaits a reply. They hold no driver,
// and tell what is asked of it.
#![tactic(auto)]

pub mod answering;
pub mod giving;
pub mod heard;
pub mod hears;
pub mod reading;
pub mod settings;
pub mod state;
pub mod turn;
pub mod words;
