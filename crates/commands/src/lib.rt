//! The command line: what the words ask for, what is written of it, and how it ends.
#![tactic(auto)]

mod args;
mod command;
mod command_files;
mod command_text;
mod ending;
pub mod laws;
mod reading;
mod writing;

pub use args::Wanted;
pub use command::rtsim;
pub use ending::Ending;
