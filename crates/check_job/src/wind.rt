// The wind of a `Q` line that has numbers out of range: specs/Internal/WindFault.antt.
ghost use Rattle.std.specs.Prelude.{◌≡◌, drop};
ghost use Rattle.job_line.specs.Bytes.{letter_q};
ghost use Rattle.job_line.specs.Line.{line, only};
ghost use Rattle.check_job.specs.Internal.WindFault.{fault_of, line_fault};

use job_line::read_line;
use job_pane::{Wind, is_allowed_wind};
use std::fmt;

// What is wrong with the wind that a line states by class.
#[derive(Clone, Copy, Debug, PartialEq, Eq)]
pub(crate) enum WindFault {
    NoClass,
    NoZone,
}

// The classes or the zones that there are.
impl fmt::Display for WindFault {
    fn fmt<W: fmt::Write>(&self, f: &mut fmt::Formatter<W>) -> fmt::Result {
        f.write_str(match self {
            WindFault::NoClass => {
                "the class of a Q line is 1 to 6 for N1 to N6, or 7 to 10 for C1 to C4"
            }
            WindFault::NoZone => {
                "the zone of a Q line is 1, away from the edges of the roof, or 2, up to 1.2 m from one"
            }
        })
    }
}

// The fault of the `Q` line at an offset; none where another line begins there.
pub(crate) fn line_fault(file: &[u8], offset: usize) -> Option<WindFault>
    ensures { result ≡ line_fault (line (only letter_q) 9 (drop offset file.now)) }
{
    let ([.., class, zone], _) = read_line::<9>(&file[offset.min(file.len())..], b'Q')?;
    fault_of(class, zone)
}

// What is wrong with a class and a zone, by the reader's own test.
fn fault_of(class: u32, zone: u32) -> Option<WindFault>
    ensures { result ≡ fault_of class zone }
{
    if is_allowed_wind(Wind::ByClass { class, zone }) {
        None
    } else if is_allowed_wind(Wind::ByClass { class, zone: 1 }) {
        Some(WindFault::NoZone)
    } else {
        Some(WindFault::NoClass)
    }
}
