// Where the run of a position ends, where the position lies on the card, and the piece there (store-io's regionmap.rs). A position in a region
// becomes an offset on the card here and nowhere else. A map lies in lent words (regionmap's Words); every public function is total on whatever
// words come.
ghost use Rattle.std.specs.Prelude.{◌≡◌, ◌+◌, ◌-◌, ◌≤◌, min};
ghost use Rattle.regionmap.specs.Map.{map_run_end, map_run_left, place};
ghost use Rattle.regionmap.specs.Words.{map_in, position_of, offset_of};
ghost use Rattle.regionmap.specs.Found.{HoldsMap, piece_found, wrap64};

use crate::runs::run_of;
use crate::{FoundPiece, FoundRun, Offset, Position};

// The data length (RegionMap::len); 0 where the words are too few.
#[tactic(auto, unfolding(crate::specs::Words::map_in))]
fn data_length(map: &[u64]) -> u64
    ensures { HoldsMap map.now → result ≡ (map_in map.now).data_length }
{
    if map.len() < 4 { 0 } else { map[2] }
}

// The card offset of a position in its run (file + (pos - start) of RegionMap::locate), wrapping.
#[tactic(auto, unfolding(crate::specs::Found::wrap64))]
fn offset_in(run: FoundRun, pos: Position) -> Offset
    requires { run.start.0 ≤ pos.0 }
    ensures { result ≡ offset_of (wrap64 (run.file.0 + (pos.0 - run.start.0))) }
{
    Offset(run.file.0.wrapping_add(pos.0 - run.start.0))
}

// Where a run of the map ends, cut to the data length.
fn cut_end(map: &[u64], run: FoundRun) -> Position
    ensures { HoldsMap map.now → result ≡ position_of (min run.end.0 (map_in map.now).data_length) }
{
    Position(run.end.0.min(data_length(map)))
}

// Where the run of a position ends, cut to the data length (RegionMap::run_end).
#[tactic(auto, unfolding(crate::specs::Map::map_run_end, crate::specs::Found::found_of))]
pub fn run_end(map: &[u64], pos: Position) -> Position
    ensures { HoldsMap map.now → result ≡ position_of (map_run_end (map_in map.now) pos.0) }
{
    cut_end(map, run_of(map, pos))
}

// The bytes from a position to the end of its run (RegionMap::run_left); 0 at or past the data's end, where the Rust asserts.
#[tactic(auto, unfolding(crate::specs::Map::map_run_left))]
pub fn run_left(map: &[u64], pos: Position) -> u64
    ensures { HoldsMap map.now → result ≡ map_run_left (map_in map.now) pos.0 }
{
    run_end(map, pos).0.saturating_sub(pos.0)
}

// The card offset of a position (RegionMap::locate, without its length and its asserts).
#[tactic(auto, unfolding(crate::specs::Map::place, crate::specs::Found::found_of))]
pub fn locate(map: &[u64], pos: Position) -> Offset
    ensures { HoldsMap map.now → result ≡ offset_of (wrap64 (place (map_in map.now) pos.0)) }
{
    offset_in(run_of(map, pos), pos)
}

// The piece at a position, of the bytes left there, by one search (the arithmetic of the submitter's first_piece).
pub fn piece_at(map: &[u64], pos: Position, left: u64) -> FoundPiece
    ensures { HoldsMap map.now → result ≡ piece_found (map_in map.now) pos.0 left }
{
    let run = run_of(map, pos);
    let end = cut_end(map, run);
    FoundPiece {
        offset: offset_in(run, pos),
        count: end.0.saturating_sub(pos.0).min(left),
    }
}
