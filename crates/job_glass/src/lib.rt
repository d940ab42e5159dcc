// The glass part of a job file: document 01, "The job file".
#![tactic(auto)]

mod entry;

// A glass of the rack, with its stock of sheets: a line `G id kind thick w h two four stock`.
//
// Its numbers are plain: any number of a line may stand here until cause 5 has judged it, and public functions answer for any
// glass. A narrower type would ask more of their callers.
#[derive(Clone, Copy, Default)]
pub struct Glass {
    pub id: u32,
    // laminated: 1 annealed, 2 heat-strengthened, 3 toughened; monolithic: 4 toughened
    pub kind: u32,
    // nominal, in mm
    pub thick: u32,
    // the sheet's sides, in mm
    pub w: u32,
    pub h: u32,
    // tenths of the span constant k1, for two edges and for four
    pub two: u32,
    pub four: u32,
    // sheets
    pub stock: u32,
}
