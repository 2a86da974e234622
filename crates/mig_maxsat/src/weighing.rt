// What a model weighs, and what no assignment that follows some steps exceeds.
ghost use Rattle.std.specs.Prelude.{◌≡◌, ◌<◌, ◌≤◌, ◌^◌, ◌≤ℤ◌, pos, if◌then◌else◌, List, Bool, length};
ghost use Rattle.std.specs.Int.RustNames.{unsigned_abs};
ghost use Rattle.mig_sat.specs.Steps.{FollowsAll};
ghost use Rattle.mig_maxsat.specs.Heaviest.{weight, magnitude};
ghost use Rattle.mig_maxsat.specs.Bounds.{IsMost};
ghost use Rattle.mig_maxsat.specs.Losses.{most_at, most_from};

use mig_sat::Trail;

/// The weight, or 0 where the value is false.
fn counted(value: bool, weight: i64) -> i64
    ensures { result ≡ (if value then weight else pos 0) }
{
    if value { weight } else { 0 }
}

/// What the true variables weigh.
pub fn weigh(weights: &[i64], values: &[bool]) -> i64
    requires sized { length values.now ≡ length weights.now }
    requires fits { magnitude weights.now < 2 ^ 62 }
    ensures { result ≡ weight weights.now values.now }
{
    let mut sum = 0;
    for var in 0..weights.len() {
        sum += counted(values[var], weights[var]);
    }
    sum
}

/// The most that a variable can weigh: nothing where it is false, and not less than nothing where it has no value.
fn most_of(value: Option<bool>, weight: i64) -> i64
    ensures bound { IsMost value weight result }
    ensures is { result ≡ most_at value weight }
{
    match value {
        Some(true) => weight,
        Some(false) => 0,
        None => { if weight < 0 { 0 } else { weight } }
    }
}

/// A weight that no assignment exceeds that follows the steps: what is true counts, and what is free where it weighs more than nothing.
pub fn most(weights: &[i64], vars: u32, trail: &Trail) -> i64
    requires sized { length weights.now ≡ vars }
    requires size { trail.now.size ≡ vars }
    requires fits { magnitude weights.now < 2 ^ 62 }
    ensures bound { (m : List Bool) → FollowsAll m trail.now.steps → weight weights.now m ≤ℤ result }
    ensures small { unsigned_abs result ≤ magnitude weights.now }
    ensures is { result ≡ most_from trail.now.steps 0 weights.now }
{
    let mut sum = 0;
    for var in 0..vars {
        sum += most_of(trail.value(var), weights[var as usize]);
    }
    sum
}
