use rt_base::Event;

/// The head of an entry: its event and its tick, and which of the journal's lines are its own.
#[derive(Drop)]
pub(crate) struct Header {
    pub(crate) event: Event,
    pub(crate) tick: u32,
    pub(crate) first: u32,
    pub(crate) count: u32,
}
