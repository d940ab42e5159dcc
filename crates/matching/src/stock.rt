// The sheets that are left, and which glasses have one to spare.
ghost use Rattle.std.specs.Prelude.{◌≡◌, ◌<◌, ◌-◌, ltb, get_or, set};
ghost use Rattle.glass_set.specs.Internal.Member.{Members};

use glass_set::{with, without};
use std::marker::Model;

// How many sheets are left of each glass. `spare` has the glasses with a sheet left, so that a search finds one by a mask.
#[derive(Drop)]
pub struct Stock {
    left: [u32; 64],
    spare: u64,
}

impl Model for Stock {
    ghost use Rattle.std.specs.Prelude.{ℕ, List, ltb, get_or};
    ghost use Rattle.glass_set.specs.Internal.Member.{Members};

    ghost Value = { List ℕ };

    ghost view = { λ s. s.left };

    ghost invariant = { λ s. Members s.spare (λ g. ltb 0 (get_or s.left g 0)) };
}

impl Stock {
    // All the sheets that there are.
    pub fn new(sheets: [u32; 64]) -> Self
        ensures { result ≡ sheets }
    {
        Stock {
            left: sheets,
            spare: with_a_sheet(&sheets),
        }
    }

    // The glasses with a sheet to spare.
    pub fn spare(&self) -> u64
        ensures { Members result (λ g. ltb 0 (get_or self.now g 0)) }
    {
        self.spare
    }

    // Takes one sheet of a glass, if there is one.
    pub fn take(&mut self, glass: usize)
        requires { glass < 64 }
        ensures { self.new ≡ set self.old glass (get_or self.old glass 0 - 1) }
    {
        self.left[glass] = self.left[glass].saturating_sub(1);
        if self.left[glass] == 0 {
            self.spare = without(self.spare, glass);
        }
    }
}

// The glasses of which there is a sheet. The row of a pane is made so too, by verdicts: a function of any test would promise by how its
// closure is called, and be no plainer than the two loops.
#[tactic(auto, using(glass_set::proofs::Members::has_none))]
fn with_a_sheet(sheets: &[u32; 64]) -> u64
    ensures { Members result (λ g. ltb 0 (get_or sheets.now g 0)) }
{
    let mut spare = 0;
    for (glass, count) in sheets.iter().enumerate() {
        if 0 < *count {
            spare = with(spare, glass);
        }
    }
    spare
}
