// The pane part of a job file: documents 01 and 02, "The job file".
#![tactic(auto)]

mod entry;
mod winds;

pub use winds::is_allowed_wind;

// The wind on a pane, as its line states it.
#[derive(Clone, Copy)]
pub enum Wind {
    // a `P` line: ultimate pressures, in units of 0.01 kPa
    ByPressure { down: u32, up: u32 },
    // a `Q` line: a class, 1 to 10 for N1 to N6 and C1 to C4, and a zone, 1 away from edges or 2 near one
    ByClass { class: u32, zone: u32 },
}

// A pane of the roof: a line `P id edges angle awning top w h down up`, or `Q id edges angle awning top w h class zone`.
//
// Its numbers and its wind's are plain: any number of a line may stand here until cause 5 has judged it, and public functions
// answer for any pane. A narrower type would ask more of their callers.
#[derive(Clone, Copy, Default)]
pub struct Pane {
    pub id: u32,
    // supported edges, 2 or 4
    pub edges: u32,
    // whole degrees from horizontal
    pub angle: u32,
    // 1 on an awning
    pub awning: u32,
    // how high above the floor the pane reaches, in mm
    pub top: u32,
    // the sight size, in mm; w lies between the supports where there are two
    pub w: u32,
    pub h: u32,
    pub wind: Wind,
}
