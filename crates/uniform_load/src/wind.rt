// The wind on a pane: specs/Wind.antt.
ghost use Rattle.std.specs.Prelude.{◌≡◌};
ghost use Rattle.uniform_load.specs.Wind.{pressures_of};

use job_pane::Wind;
use wind_classes::{Pressures, class_pressures};

// The two pressures of a wind. It is no `From`: neither type is of this crate.
pub fn pressures_of(wind: Wind) -> Pressures
    ensures { result ≡ pressures_of wind }
{
    match wind {
        Wind::ByPressure { down, up } => Pressures { down, up },
        Wind::ByClass { class, zone } => class_pressures(class, zone),
    }
}
