// The sheet: what it holds and what it is to meet stands in specs/, and here the mark that closes it, and a component's record once it is decoded.
#![tactic(auto)]

// S6, F9: the two bytes that close a sheet, hexadecimal 46 53. The reader compares them, the restater writes them.
pub const MARK: [u8; 2] = *b"FS";

// The record of one component, decoded (S3): how many states it has, its initial set, its alphabet, and where its states begin, when the
// states of all components are numbered one after another.
#[derive(Clone, Copy)]
pub struct Component {
    pub states: usize,
    pub initial: u64,
    pub alphabet: u64,
    pub base: usize,
}
