// The run of a position, found by halving (RegionMap::run_of of store-io's regionmap.rs; D-6). A map lies in lent words (regionmap's Words); every
// function that is public is total on whatever words come.
ghost use Rattle.std.specs.Prelude.{◌≡◌, ◌+◌, ◌*◌, ◌≤◌, length};
ghost use Rattle.regionmap.specs.Map.{map_run};
ghost use Rattle.regionmap.specs.Words.{map_in};
ghost use Rattle.regionmap.specs.Found.{HoldsMap, LastStart, found_of};

use crate::{FoundRun, Offset, Position};

// How many of the further runs start at or before pos, found by halving (the loop of RegionMap::run_of).
// Its contract holds where the starts do not ascend too; of such a slice partition_point says nothing.
#[tactic(auto, using(crate::proofs::Found::all_runs, crate::proofs::Found::upper, crate::proofs::Found::lower, crate::proofs::Found::met))]
fn runs_up_to(map: &[u64], count: usize, pos: Position) -> usize
    requires { 4 + 2 * count ≤ length map.now }
    ensures { LastStart map.now count pos.0 result }
{
    let p = pos.0;
    let mut lo = 0;
    let mut hi = count;
    while lo < hi {
        let mid = lo + (hi - lo) / 2;
        if map[2 * mid + 4] <= p {
            lo = mid + 1;
        } else {
            hi = mid;
        }
    }
    lo
}

// The run of a position (RegionMap::run_of); a run of zeros where the words are too few for the map's runs.
pub fn run_of(map: &[u64], pos: Position) -> FoundRun
    ensures value { HoldsMap map.now → result ≡ found_of (map_run (map_in map.now) pos.0) }
    ensures begun { result.start.0 ≤ pos.0 }
{
    let none = FoundRun {
        start: Position(0),
        file: Offset(0),
        end: Position(0),
    };
    if map.len() < 4 {
        return none;
    }
    let count = map[3] as usize;
    if (map.len() - 4) / 2 < count {
        return none;
    }
    let k = runs_up_to(map, count, pos);
    let end = if k < count { map[2 * k + 4] } else { map[1] };
    if k == 0 {
        return FoundRun {
            start: Position(0),
            file: Offset(map[0]),
            end: Position(end),
        };
    }
    let at = 2 * k + 2;
    FoundRun {
        start: Position(map[at]),
        file: Offset(map[at + 1]),
        end: Position(end),
    }
}
