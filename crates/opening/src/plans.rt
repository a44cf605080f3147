// The opening's rules on the regions that a plan lists, 70 words each (the model's Memory): each function is a definition of the model's Opening,
// over the words of one region or of all.
ghost use Rattle.std.specs.Prelude.{◌≡◌, ◌&&◌, ◌+◌, ◌*◌, ◌≤◌, ◌<◌, length, get_or, drop};
ghost use Rattle.layout.specs.Block.{on_block};
ghost use Rattle.regionmap.specs.Map.{ascends};
ghost use Rattle.regionmap.specs.Words.{runs_in, map_in};
ghost use Rattle.model.specs.Opening.{runs_on_block, blocks_rule, map_rule, region_rule, each_region, among, ids_rule, plan_in, plans_in, REGION};
ghost use Rattle.opening.specs.Plans.{ids_from};
ghost use Rattle.model.specs.Memory.{MAP_WORDS};

use memory::REGION;

// "Starts strictly ascend, above 0 and below the capacity."
#[tactic(auto, using(crate::proofs::Steps::runs_taken), unfolding(regionmap::specs::Map::ascends))]
fn starts_rise(map: &[u64], count: usize) -> bool
    requires { (4 + 2 * count ≤ length map.now) × (count ≤ 32) }
    ensures { result ≡ ascends 0 (runs_in count (drop 4 map.now)) (get_or map.now 1 0) }
{
    let capacity = map[1];
    let mut lo: u64 = 0;
    for j in 0..count {
        let start = map[4 + 2 * j];
        if start <= lo || capacity <= start {
            return false;
        }
        lo = start;
    }
    true
}

// The j-th further run's start and card offset are multiples of the block.
fn run_on_block(map: &[u64], j: usize, block: u64) -> bool
    requires { (6 + 2 * j ≤ length map.now) × (j < 32) }
    ensures { result ≡ (on_block block (get_or map.now (4 + 2 * j) 0) && on_block block (get_or map.now (5 + 2 * j) 0)) }
{
    layout::on_block(block, map[4 + 2 * j]) && layout::on_block(block, map[5 + 2 * j])
}

// "Positions, card offsets .. are multiples of the block": of all further runs.
fn runs_on_block(map: &[u64], count: usize, block: u64) -> bool
    requires { (4 + 2 * count ≤ length map.now) × (count ≤ 32) }
    ensures { result ≡ runs_on_block block (runs_in count (drop 4 map.now)) }
{
    (0..count).all(|j| run_on_block(map, j, block))
}

// The numbers of a region's map are multiples of the block.
#[tactic(auto, unfolding(model::specs::Opening::blocks_rule, regionmap::specs::Words::map_in))]
fn blocks_rule(map: &[u64], count: usize, block: u64) -> bool
    requires { (4 + 2 * count ≤ length map.now) × ((count ≤ 32) × (count ≡ get_or map.now 3 0)) }
    ensures { result ≡ blocks_rule block (map_in map.now) }
{
    layout::on_block(block, map[0])
        && layout::on_block(block, map[1])
        && layout::on_block(block, map[2])
        && runs_on_block(map, count, block)
}

// The rules on one region's map.
#[tactic(auto, using(model::proofs::Maps::runs_length), unfolding(model::specs::Opening::map_rule, regionmap::specs::Words::map_in))]
fn map_rule(map: &[u64], block: u64) -> bool
    requires { length map.now ≡ MAP_WORDS }
    ensures { result ≡ map_rule block (map_in map.now) }
{
    let count = map[3] as usize;
    count <= 32
        && 0 < map[1]
        && map[2] <= map[1]
        && starts_rise(map, count)
        && blocks_rule(map, count, block)
}

// The rules on one region, whose words these are.
#[tactic(auto, using(crate::proofs::Steps::to_the_end), unfolding(model::specs::Opening::region_rule, model::specs::Opening::plan_in))]
fn region_rule(region: &[u64], block: u64) -> bool
    requires { length region.now ≡ REGION }
    ensures { result ≡ region_rule block (plan_in region.now) }
{
    let generation = region[1];
    generation < 0x1_0000_0000 && map_rule(&region[2..], block)
}

// The rules on each region of the plan.
pub fn each_region(plan: &[u64], regions: usize, block: u64) -> bool
    requires { (REGION * regions ≤ length plan.now) × (regions ≤ 8) }
    ensures { result ≡ each_region block (plans_in regions plan.now) }
{
    (0..regions).all(|h| region_rule(&plan[REGION * h..REGION * h + REGION], block))
}

// Whether a region from the one at `from` on has the id.
fn id_among(plan: &[u64], from: usize, regions: usize, id: u64) -> bool
    requires { (REGION * regions ≤ length plan.now) × ((regions ≤ 8) × (from ≤ regions)) }
    ensures { result ≡ among id (ids_from plan.now regions from) }
{
    (from..regions).any(|h| id == plan[REGION * h])
}

// "distinct ids": no region has the id of one behind it.
pub fn ids_rule(plan: &[u64], regions: usize) -> bool
    requires { (REGION * regions ≤ length plan.now) × (regions ≤ 8) }
    ensures { result ≡ ids_rule (plans_in regions plan.now) }
{
    (0..regions).all(|h| !id_among(plan, h + 1, regions, plan[REGION * h]))
}
