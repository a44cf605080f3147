// The store's words (the model's Memory says how the table lies in what the host lends): how an opening fills them, and how a call reads them.
// What store-io keeps as values in Inner, its LiveRegions and its Domain lies there.
//
// causes      a cause of poison, in words and back
// fill        what an opening writes
// lengths     whether a later call lends as much as the opening
// liveregion  a region's record, and the store's poison
// piece       a piece, found by its region's map
// settings    the opening's numbers
// words       what a host lends of row memory besides the rows
#![tactic(auto)]

pub mod causes;
pub mod fill;
pub mod lengths;
pub mod liveregion;
pub mod piece;
pub mod settings;
pub mod words;

ghost use Rattle.std.specs.Prelude.{◌≡◌};
ghost use Rattle.model.specs.Memory.{word01};

// How many words stand before the regions.
pub const HEAD: usize = 48;

// The word that says how many regions there are.
pub const REGIONS: usize = 12;

// The word that says whether the store is poisoned.
pub const POISON: usize = 19;

// The word of the first cause's operation.
pub const CAUSE_OP: usize = 20;

// The word that says whether the first cause has an OS error.
pub const CAUSE_HAS: usize = 21;

// The word of that error.
pub const CAUSE_RAW: usize = 22;

// The word of region 0's gate; region h's lies 3 h words further on, and so do its marks.
pub const GATE: usize = 24;

// The word of region 0's read-only mark.
pub const READ_ONLY: usize = 25;

// The word of region 0's forced mark.
pub const FORCED: usize = 26;

// How many words a region has, in the store and in a plan.
pub const REGION: usize = 70;

// Where region 0's map starts, behind its id and its generation; region h's lies h × REGION words further on.
pub const MAP: usize = 50;

// How many words a map has.
pub const MAP_WORDS: usize = 68;

// A flag as a word.
pub fn flag_word(on: bool) -> u64
    ensures { result ≡ word01 on }
{
    if on { 1 } else { 0 }
}
