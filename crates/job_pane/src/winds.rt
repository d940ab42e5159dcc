// The wind that a pane line states: specs/StatedWind.antt.
ghost use Rattle.std.specs.Prelude.{◌≡◌};
ghost use Rattle.job_pane.specs.StatedWind.{wind_of, allowed_wind};
ghost use Rattle.job_pane.specs.declared.Wind.TheVariants.{ByPressure};

use crate::Wind;
use job_part::is_between;

// The wind of a pane of zeros. `derive` makes a default of a variant without fields alone.
impl Default for Wind {
    ghost is_default = { λ wind. wind ≡ ByPressure 0 0 };

    fn default() -> Wind {
        Wind::ByPressure { down: 0, up: 0 }
    }
}

// What the last two numbers of a pane line state, by its letter: `Q`, or else `P`. The letter is the byte that `read_line` looks for: an
// enum of the two bytes would be made for this test alone, and cast back for that call.
pub(crate) fn wind_of(letter: u8, first: u32, second: u32) -> Wind
    ensures { result ≡ wind_of letter first second }
{
    if letter == b'Q' {
        Wind::ByClass {
            class: first,
            zone: second,
        }
    } else {
        Wind::ByPressure {
            down: first,
            up: second,
        }
    }
}

// Whether both numbers of a wind are among their allowed values.
pub fn is_allowed_wind(wind: Wind) -> bool
    ensures { result ≡ allowed_wind wind }
{
    match wind {
        Wind::ByPressure { down, up } => down <= 1000 && up <= 1000,
        Wind::ByClass { class, zone } => is_between(1, 10, class) && is_between(1, 2, zone),
    }
}
