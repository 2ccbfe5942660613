//! The shell of the console: it gathers received bytes to lines, and prints what a line's command shows of a view.
#![tactic(auto)]

mod cells;
mod columns;
mod commands;
mod pieces;
mod printing;
mod rows;
mod shell;
mod tables;

pub use commands::command;
pub use shell::{Command, Shell};
