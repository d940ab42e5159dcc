// Clause 2, the size: documents 01 and 02, "The four clauses".
#![tactic(auto)]

mod covers;

ghost use Rattle.std.specs.Prelude.{◌≡◌};
ghost use Rattle.cut_size.specs.Size.{cut_side, size_fails};

pub use covers::edge_cover;
use job_glass::Glass;
use job_pane::Pane;

// Whether the cut size of a pane does not lie within a sheet, either way round. Shorter side by shorter and longer by longer, both
// ways are tried at once.
#[tactic(auto, using(crate::proofs::Ways::by_sides))]
pub fn is_too_small(pane: Pane, glass: Glass) -> bool
    ensures { result ≡ size_fails pane glass }
{
    let cover = edge_cover(glass.thick);
    let shorter = cut_side(pane.w.min(pane.h), cover);
    let longer = cut_side(pane.w.max(pane.h), cover);
    u64::from(glass.w.min(glass.h)) < shorter || u64::from(glass.w.max(glass.h)) < longer
}

// What a side of a pane takes of a sheet, in mm.
fn cut_side(side: u32, cover: u32) -> u64
    ensures { result ≡ cut_side side cover }
{
    u64::from(side) + 2 * u64::from(cover)
}
