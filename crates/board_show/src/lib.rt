//! The canonical text of a board, and boards made from a number.
#![tactic(auto)]

mod draws;
mod fields;
mod generating;
pub mod laws;
mod lines;
mod scripts;
mod showing;
mod shown;
mod statements;
mod writing;

pub use generating::generate;
pub use showing::show;
