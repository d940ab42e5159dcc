// The design pressure and the span constant of a pane and a glass: specs/UniformLoad.antt.
ghost use Rattle.std.specs.Prelude.{◌≡◌};
ghost use Rattle.uniform_load.specs.UniformLoad.{span_constant};
ghost use Rattle.uniform_load.specs.Internal.Steps.{pressure_on};

use crate::UniformLoad;
use crate::glass_loads::{max_dead_load, min_dead_load};
use job_glass::Glass;

// P, in units of 0.01 kPa: the dead load with the wind on it or, where that is more, what the glass's own weight leaves of the uplift.
// With `max`, `place` takes 1.23 to 1.29 of safe Rust's time on the largest job of heavy shortage, where bench/run's bar is 1.25; so 1.18 to
// 1.25.
pub fn design_pressure(load: UniformLoad, glass: Glass) -> u64
    ensures { result ≡ pressure_on load glass }
{
    let downward = max_dead_load(load.dead.maximum, glass) + u64::from(load.pressures.down);
    let held = min_dead_load(load.dead.minimum, glass);
    let up = u64::from(load.pressures.up);
    if held + downward < up {
        up - held
    } else {
        downward
    }
}

// K, in tenths. The edges are a number of the pane's line.
pub fn span_constant(edges: u32, glass: Glass) -> u32
    ensures { result ≡ span_constant edges glass }
{
    match edges {
        2 => glass.two,
        _ => glass.four,
    }
}
