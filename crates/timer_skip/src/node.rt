use crate::row::Row;

/// A row with the highest level that it is on, and for each level the key of the next node there.
#[derive(Drop)]
pub struct Node<const L: usize> {
    pub row: Row,
    pub top: usize,
    pub links: [Option<usize>; L],
}
