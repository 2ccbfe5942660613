//! What a run leaves behind: its journal, and the texts that are written of it.
#![tactic(auto)]

mod backward;
mod consoles;
mod entries;
mod header;
pub mod laws;
mod reading;
mod rows;
mod shown;
mod table;
mod traces;
mod writing;

pub use consoles::console;
pub use entries::Journal;
pub use reading::read_events;
pub use rt_plain::Cut;
pub use traces::text;
