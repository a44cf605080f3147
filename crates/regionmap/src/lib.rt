// Where a region's data lies on the card (store-io's regionmap.rs), as data: positions, offsets and what is found in a map. What a map is and how
// it lies in lent words are definitions in specs/; the crates runs and pieces look things up in it, and they alone make an offset of a position.
#![tactic(auto)]

pub mod pieces;
pub mod runs;

// A position: it counts in a region.
#[derive(Clone, Copy)]
pub struct Position(pub u64);

// An offset: it counts on the card.
#[derive(Clone, Copy)]
pub struct Offset(pub u64);

// The run of a position: its start, its card offset and its end (the triple of RegionMap::run_of). The end is the next start or the capacity;
// run_end cuts it to the data length.
#[derive(Clone, Copy)]
pub struct FoundRun {
    pub start: Position,
    pub file: Offset,
    pub end: Position,
}

// A piece: where its bytes lie on the card, and how many they are (what first_piece of the submitter issues).
#[derive(Clone, Copy)]
pub struct FoundPiece {
    pub offset: Offset,
    pub count: u64,
}
