// Clause 4, the uniform load: document 01, "The four clauses"; AS 1288, 6.5.5 and Tables 6.1 and A2.
#![tactic(auto)]

mod glass_loads;
mod pressure;
mod wind;

ghost use Rattle.std.specs.Prelude.{◌≡◌};
ghost use Rattle.uniform_load.specs.Internal.Steps.{uniform_load_of, overloaded};

use dead_loads::{DeadLoad, dead_load_at};
use job_glass::Glass;
use job_pane::Pane;
use point_load::span;
use pressure::{design_pressure, span_constant};
use wind::pressures_of;
use wind_classes::Pressures;

// What clause 4 reads of a pane, for every glass that it is tried with.
#[derive(Clone, Copy)]
pub struct UniformLoad {
    // supported edges, 2 or 4: a number of the pane's line
    pub edges: u32,
    // B times B, in square mm
    pub square: u64,
    // of 6 mm glass at the pane's angle
    pub dead: DeadLoad,
    // those of the wind
    pub pressures: Pressures,
}

impl UniformLoad {
    pub fn of(pane: Pane) -> Self
        ensures { result ≡ uniform_load_of pane }
    {
        let b = u64::from(span(pane));
        UniformLoad {
            edges: pane.edges,
            square: b * b,
            dead: dead_load_at(pane.angle),
            pressures: pressures_of(pane.wind),
        }
    }

    // Whether it is above what a glass may carry. Both products fit 128 bits, whatever the numbers of pane and glass.
    pub fn overloads(self, glass: Glass) -> bool
        ensures { result ≡ overloaded self glass }
    {
        let k = u64::from(span_constant(self.edges, glass));
        let p = u128::from(design_pressure(self, glass));
        u128::from(k * k) < u128::from(self.square) * p
    }
}
