// The opening's rules on card bytes: "No two runs share a card byte, and all lie within the card's size, at most 2^63 − 1." The runs of all regions
// of a plan are counted through in one row, region 0's first: the k-th lies where the k-th of all_extents (the model's Opening) says.
ghost use Rattle.std.specs.Prelude.{◌≡◌, ℕ, ◌+◌, ◌-◌, ◌*◌, ◌≤◌, ◌<◌, length, get_or, take, drop, leb, ltb};
ghost use Rattle.layout.specs.Pick.{pick};
ghost use Rattle.regionmap.specs.Map.{extents, apart, apart_from, all_apart, all_within};
ghost use Rattle.regionmap.specs.Words.{map_in};
ghost use Rattle.model.specs.Opening.{all_extents, plans_in, REGION};

use memory::REGION;

// The card bytes of a run: its offset there, and how many they are.
#[derive(Clone, Copy)]
struct CardRun {
    offset: u64,
    size: u64,
}

// Where the j-th run of a map ends: "at the next start or the capacity".
#[tactic(auto, unfolding(layout::specs::Pick::pick))]
fn run_end(map: &[u64], j: usize) -> u64
    requires { (4 + 2 * get_or map.now 3 0 ≤ length map.now) × (j ≤ get_or map.now 3 0) }
    ensures { result ≡ pick (ltb j (get_or map.now 3 0)) (get_or map.now (4 + 2 * j) 0) (get_or map.now 1 0) }
{
    let count = map[3] as usize;
    if j < count { map[4 + 2 * j] } else { map[1] }
}

// The card bytes of the j-th run of a map, of which the 0-th is the first run.
#[tactic(auto, using(crate::proofs::CardRuns::first_at, crate::proofs::CardRuns::further_at))]
fn run_of_map(map: &[u64], j: usize) -> CardRun
    requires { (4 + 2 * get_or map.now 3 0 ≤ length map.now) × (j ≤ get_or map.now 3 0) }
    ensures { get_or (extents (map_in map.now)) j (record { offset = 0; size = 0 }) ≡ record { offset = result.offset; size = result.size } }
{
    let end = run_end(map, j);
    if j == 0 {
        return CardRun {
            offset: map[0],
            size: end,
        };
    }
    CardRun {
        offset: map[3 + 2 * j],
        size: end.saturating_sub(map[2 + 2 * j]),
    }
}

// The card bytes of the j-th run of the h-th region.
#[tactic(auto, using(crate::proofs::CardRuns::lent_map, crate::proofs::CardRuns::map_room, crate::proofs::CardRuns::count_word))]
fn run_of_region(plan: &[u64], h: usize, j: usize) -> CardRun
    requires { (REGION * h + REGION ≤ length plan.now) ×
        ((get_or plan.now (REGION * h + 5) 0 ≤ 32) × (j ≤ get_or plan.now (REGION * h + 5) 0)) }
    ensures { get_or (extents (map_in (drop 2 (take REGION (drop (REGION * h) plan.now))))) j (record { offset = 0; size = 0 })
        ≡ record { offset = result.offset; size = result.size } }
{
    let at = REGION * h;
    let region = &plan[at..at + REGION];
    run_of_map(&region[2..], j)
}

// A plan with the words of so many regions, none of which has more than 32 further runs.
#[derive(Clone, Copy)]
struct Listed<'a> {
    plan: &'a [u64],
    regions: usize,
    ghost room: { REGION * regions ≤ length plan.now },
    ghost few: { (h : ℕ) → h < regions → get_or plan.now (REGION * h + 5) 0 ≤ 32 },
}

impl Listed<'_> {
    // How many further runs the h-th region has.
    fn further_runs(self, h: usize) -> usize
        requires { h < self.regions }
        ensures { result ≡ get_or self.entry.plan.now (REGION * h + 5) 0 }
    {
        self.plan[REGION * h + 5] as usize
    }

    // How many runs all regions have.
    #[tactic(auto, using(crate::proofs::CardRuns::rows_counted))]
    fn run_count(self) -> usize
        ensures { result ≡ length (all_extents (plans_in self.entry.regions self.entry.plan.now)) }
    {
        let mut count = 0;
        for h in 0..self.regions {
            count += 1 + self.further_runs(h);
        }
        count
    }

    // The card bytes of the k-th run of all regions, none where there are not as many.
    #[tactic(auto, using(crate::proofs::CardRuns::rows_taken))]
    fn run(self, k: usize) -> CardRun
        ensures { get_or (all_extents (plans_in self.entry.regions self.entry.plan.now)) k (record { offset = 0; size = 0 })
            ≡ record { offset = result.offset; size = result.size } }
    {
        let mut j = k;
        for h in 0..self.regions {
            let further = self.further_runs(h);
            if j <= further {
                return run_of_region(self.plan, h, j);
            }
            j -= 1 + further;
        }
        CardRun { offset: 0, size: 0 }
    }

    // The k-th run is apart from each behind it.
    fn apart_behind(self, count: usize, k: usize) -> bool
        requires { (count ≡ length (all_extents (plans_in self.regions self.plan.now))) × (k < count) }
        ensures { result ≡ apart_from (get_or (all_extents (plans_in self.entry.regions self.entry.plan.now)) k (record { offset = 0; size = 0 }))
            (drop (k + 1) (all_extents (plans_in self.entry.regions self.entry.plan.now))) }
    {
        let run = self.run(k);
        (k + 1..count).all(|i| two_apart(run, self.run(i)))
    }
}

// The card bytes of a run end at an offset or before; no sum is made, so none wraps.
fn ends_by(run: CardRun, offset: u64) -> bool
    ensures { result ≡ leb (run.offset + run.size) offset }
{
    run.size <= offset && run.offset <= offset - run.size
}

// Two runs share no card byte: one ends where the other begins or before.
#[tactic(auto, unfolding(regionmap::specs::Map::apart))]
fn two_apart(a: CardRun, b: CardRun) -> bool
    ensures { result ≡ apart (record { offset = a.offset; size = a.size }) (record { offset = b.offset; size = b.size }) }
{
    ends_by(a, b.offset) || ends_by(b, a.offset)
}

// "and all lie within the card's size"
pub fn within_rule(plan: &[u64], regions: usize, card: u64) -> bool
    requires { (REGION * regions ≤ length plan.now) × ((h : ℕ) → h < regions → get_or plan.now (REGION * h + 5) 0 ≤ 32) }
    ensures { result ≡ all_within card (all_extents (plans_in regions plan.now)) }
{
    let listed = Listed { plan, regions };
    (0..listed.run_count()).all(|k| ends_by(listed.run(k), card))
}

// "No two runs share a card byte"
pub fn apart_rule(plan: &[u64], regions: usize) -> bool
    requires { (REGION * regions ≤ length plan.now) × ((h : ℕ) → h < regions → get_or plan.now (REGION * h + 5) 0 ≤ 32) }
    ensures { result ≡ all_apart (all_extents (plans_in regions plan.now)) }
{
    let listed = Listed { plan, regions };
    let count = listed.run_count();
    (0..count).all(|k| listed.apart_behind(count, k))
}
