// Link's numbers for one link: its ends counted, the bias and the strength that follow from the counts.
#![tactic(auto)]

ghost use Rattle.std.specs.Prelude.{◌≡◌, ◌+◌, ◌<◌, ◌^◌, min, length, get_or};
ghost use Rattle.rules.specs.Number.{◌⊘◌, 1·, float};
ghost use Rattle.link_tally.specs.Tally.{one_more, strength_or};

// Both ends of a link, also where they are the same particle.
pub fn count_link(counts: &mut [u32], source: usize, target: usize)
    requires { (source < length counts.old) × (target < length counts.old) × (get_or counts.old source 0 < 2 ^ 31) × (get_or (one_more counts.old source) target 0 < 2 ^ 31) }
    ensures { counts.new ≡ one_more (one_more counts.old source) target }
{
    counts[source] += 1;
    counts[target] += 1;
}

// count[source] / (count[source] + count[target])
pub fn bias(source: u32, target: u32) -> f64
    requires { source + target < 2 ^ 32 }
    ensures { result ≡ float source ⊘ float (source + target) }
{
    source as f64 / (source + target) as f64
}

// 1 / the lesser count
fn default_strength(source: u32, target: u32) -> f64
    ensures { result ≡ 1· ⊘ float (min source target) }
{
    1.0 / source.min(target) as f64
}

// Of link number k; the default where the list lent is empty.
pub fn strength_at(strengths: &[f64], k: usize, source: u32, target: u32) -> f64
    requires { 0 < length strengths.now → k < length strengths.now }
    ensures { result ≡ strength_or strengths.now k source target }
{
    if strengths.is_empty() {
        default_strength(source, target)
    } else {
        strengths[k]
    }
}
