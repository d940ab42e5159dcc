// How a pane is supported: specs/Support.antt.
ghost use Rattle.std.specs.Prelude.{◌≡◌};
ghost use Rattle.point_load.specs.Support.{column_of, span_of};

use job_pane::Pane;
use span_table::Column;

// The column of Tables 6.2 to 6.5 that a pane reads.
#[tactic(auto, unfolding(crate::specs::Support::column_of))]
pub fn column(pane: Pane) -> Column
    ensures { result ≡ column_of pane }
{
    let width = u64::from(pane.w.min(pane.h));
    let length = u64::from(pane.w.max(pane.h));
    if pane.edges == 2 || 3 * width < length {
        Column::TwoEdge
    } else if pane.w == pane.h {
        Column::Ar1
    } else if length <= 2 * width {
        Column::Ar2
    } else {
        Column::Ar3
    }
}

// The span B of a pane, in mm.
pub fn span(pane: Pane) -> u32
    ensures { result ≡ span_of pane }
{
    if pane.edges == 2 {
        pane.w
    } else {
        pane.w.min(pane.h)
    }
}
