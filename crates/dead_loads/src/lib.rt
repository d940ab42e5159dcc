// The dead loads by angle: Table 6.1 of AS 1288, as specs/DeadLoads.antt has it.
#![tactic(auto)]

ghost use Rattle.std.specs.Prelude.{◌≡◌};
ghost use Rattle.dead_loads.specs.Internal.Steps.{dead_load_at};

// The dead load of 6 mm glass, in units of 0.01 kPa; the maximum is that of annealed glass. It is of 16 bits, so that it may be multiplied
// by any thickness.
#[derive(Clone, Copy)]
pub struct DeadLoad {
    pub maximum: u16,
    pub minimum: u16,
}

// Maximum and minimum at 0, 5, .. 75 degrees, in units of 0.01 kPa. A row is an array, so that it takes a line, as in the standard;
// who reads it names what it holds.
static DEAD_LOADS: [[u16; 2]; 16] = [
    [57, 13],
    [57, 13],
    [56, 13],
    [55, 13],
    [54, 12],
    [52, 12],
    [49, 11],
    [47, 11],
    [44, 10],
    [40, 9],
    [37, 9],
    [33, 8],
    [28, 7],
    [24, 6],
    [19, 5],
    [15, 3],
];

// The dead load at an angle: the maximum of the row at or next below it, and the minimum of the row at or next above it. Above 75
// degrees, which no file has, there is none above. Tried `map_or` and `unwrap_or` for that row: the proof closes with `match` alone.
#[tactic(auto, using(crate::proofs::DeadLoads::in_place))]
pub fn dead_load_at(angle: u32) -> DeadLoad
    ensures { result ≡ dead_load_at angle }
{
    let below = (angle / 5).min(15) as usize;
    let above = angle.div_ceil(5) as usize;
    let [maximum, _] = DEAD_LOADS[below];
    let minimum = match DEAD_LOADS.get(above) {
        Some([_, minimum]) => *minimum,
        None => 0,
    };
    DeadLoad { maximum, minimum }
}
