// What a run keeps of a cell: the steps of its first and its last touch, and the value that it holds.
#[derive(Clone, Copy, Debug, Default)]
pub struct CellEntry {
    pub cell: u32,
    pub first: u32,
    pub last: u32,
    pub value: u32,
}
