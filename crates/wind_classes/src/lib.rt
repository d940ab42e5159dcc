// The wind pressures on the roof of a house by its wind class: Table A2 of AS 1288, as specs/RoofPressures.antt has it.
#![tactic(auto)]

ghost use Rattle.std.specs.Prelude.{◌≡◌, ◌≤◌};
ghost use Rattle.wind_classes.specs.ClassPressures.{class_pressures};

// Ultimate wind pressures, in units of 0.01 kPa. A `P` line has two numbers of these names too (job_pane's `Wind`): those are what a file
// says, before they are judged, and this crate knows of no file.
#[derive(Clone, Copy)]
pub struct Pressures {
    pub down: u32,
    pub up: u32,
}

// Any position, general, and up to 1.2 m from edges, for N1 to N6 and C1 to C4, in units of 0.01 kPa. A row is an array, so that it
// takes a line, as in the standard; who reads it names what it holds.
static ROOF_PRESSURES: [[u32; 3]; 10] = [
    [44, 69, 125],
    [60, 95, 173],
    [95, 149, 270],
    [141, 221, 402],
    [207, 325, 591],
    [280, 439, 799],
    [143, 216, 338],
    [212, 321, 502],
    [312, 473, 739],
    [422, 639, 998],
];

// The pressures of a class in a zone, which are numbers of a line, as in job_pane's `Wind`.
pub fn class_pressures(class: u32, zone: u32) -> Pressures
    ensures { result ≡ class_pressures class zone }
{
    let place = class.saturating_sub(1) as usize;
    let [any_position, general, near_edges] = ROOF_PRESSURES.get(place).copied().unwrap_or([0; 3]);
    let up = match zone {
        2 => near_edges,
        _ => general,
    };
    Pressures {
        down: any_position,
        up,
    }
}
