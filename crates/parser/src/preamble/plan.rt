// What a `region` line says is put into the words of the plan, 70 for each region.
ghost use Rattle.std.specs.Prelude.{◌≡◌, ◌++◌, ◌+◌, ◌-◌, ◌/◌, ◌≤◌, ◌<◌, length, take, drop};
ghost use Rattle.fields.specs.Fields.{spaces};
ghost use Rattle.parser.specs.Openings.{region_word_in, region_words, regions_after, plan_after};

// The count of further runs.
fn runs_in(text: &[u8]) -> u64
    ensures { result ≡ (spaces text.now - 5) / 2 }
{
    (fields::count_spaces(text).saturating_sub(5) / 2) as u64
}

// The j-th of a region's words.
#[tactic(auto, unfolding(crate::specs::Openings::region_word_in, layout::specs::Pick::pick))]
fn word_in(text: &[u8], j: usize) -> u64
    requires { j < 70 }
    ensures { result ≡ region_word_in j text.now }
{
    if j < 5 {
        return fields::words::value_in(text, j + 1);
    }
    if j == 5 {
        return runs_in(text);
    }
    fields::words::value_in(text, j)
}

// Puts a region's words into the plan from `at` on.
fn put_region(text: &[u8], plan: &mut [u64], at: usize)
    requires { at + 70 ≤ length plan.old }
    ensures { plan.new ≡ take at plan.old ++ region_words text.now ++ drop (at + 70) plan.old }
{
    for j in 0..70 {
        plan[at + j] = word_in(text, j);
    }
}

// Puts a region behind the first `count`, and tells how many there are then; a ninth has no room.
#[tactic(auto, unfolding(crate::specs::Openings::regions_after, crate::specs::Openings::plan_after, layout::specs::Pick::pick))]
pub fn add_region(text: &[u8], plan: &mut [u64; 560], count: u64) -> u64
    ensures { (result ≡ regions_after count) × (plan.new ≡ plan_after text.now count plan.old) }
{
    if 8 <= count {
        return 9;
    }
    let at = 70 * (count as usize);
    put_region(text, plan, at);
    count + 1
}
