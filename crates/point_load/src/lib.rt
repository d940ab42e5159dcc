// Clause 3, the point load: document 01, "The four clauses"; AS 1288, 6.5.4.
#![tactic(auto)]

mod live_load;
mod support;

ghost use Rattle.std.specs.Prelude.{◌≡◌};
ghost use Rattle.point_load.specs.Internal.Steps.{point_load_of, too_wide};

use job_glass::Glass;
use job_pane::Pane;
use live_load::live_load;
use span_table::{Column, max_span};
use support::column;
pub use support::span;

// What clause 3 reads of a pane, for every glass that it is tried with.
#[derive(Clone, Copy)]
pub struct PointLoad {
    // live, in tenths of a kN
    pub load: u32,
    // of Tables 6.2 to 6.5
    pub column: Column,
    // B, in mm
    pub span: u32,
}

impl PointLoad {
    pub fn of(pane: Pane) -> Self
        ensures { result ≡ point_load_of pane }
    {
        PointLoad {
            load: live_load(pane.angle, pane.awning),
            column: column(pane),
            span: span(pane),
        }
    }

    // Whether the pane's span is above what its glass may span.
    pub fn is_too_wide_for(self, glass: Glass) -> bool
        ensures { result ≡ too_wide self glass }
    {
        max_span(glass.kind, self.load, glass.thick, self.column) < self.span
    }
}
