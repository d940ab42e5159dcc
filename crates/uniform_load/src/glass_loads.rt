// The dead loads of a glass: specs/GlassLoads.antt. A row's load is a number of 16 bits, so that no product is too large, whatever the
// thickness.
ghost use Rattle.std.specs.Prelude.{◌≡◌};
ghost use Rattle.uniform_load.specs.GlassLoads.{max_dead_load, min_dead_load};

use job_glass::Glass;

// The maximum dead load of a glass, by its row's maximum and its kind: rounded up. The factors c3 are 0.31 of annealed and 0.5 of tempered
// glass, and a load goes by 1 / c3: 50 and 31 parts of 50, where 300 is 50 times 6. With a division for each kind, as the definition has it,
// or with `div_ceil`, `place` misses bench/run's bar in two or three rows more.
#[tactic(auto, using(crate::proofs::Maximum::of_annealed))]
pub fn max_dead_load(row: u16, glass: Glass) -> u64
    ensures { result ≡ max_dead_load row glass }
{
    let share = match glass.kind {
        1 => 50,
        _ => 31,
    };
    (u64::from(row) * share * u64::from(glass.thick) + 299) / 300
}

// The minimum dead load of a glass, by its row's minimum: rounded down, for every kind.
pub fn min_dead_load(row: u16, glass: Glass) -> u64
    ensures { result ≡ min_dead_load row glass }
{
    u64::from(row) * u64::from(glass.thick) / 6
}
