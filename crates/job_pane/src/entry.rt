// The line of a pane: specs/PaneLine.antt.
ghost use Rattle.std.specs.Prelude.{◌≡◌};
ghost use Rattle.job_line.specs.Internal.Steps.{as_found};
ghost use Rattle.job_pane.specs.PaneLine.{pane_of, pane_form};
ghost use Rattle.job_pane.specs.Internal.Letters.{letter_line};
ghost use Rattle.job_pane.specs.Internal.Values.{allowed_pane_id};

use crate::Pane;
use crate::winds::{is_allowed_wind, wind_of};
use job_line::read_line;
use job_part::{Entry, is_between};

impl Entry for Pane {
    ghost form = { pane_form };

    ghost id_high = { allowed_pane_id };

    // A line of the letter `P`, or else of `Q`.
    #[tactic(auto, using(crate::proofs::Lines::by_letter))]
    fn read(bytes: &[u8]) -> Option<(Pane, &[u8])> {
        read_letter(bytes, b'P').or_else(|| read_letter(bytes, b'Q'))
    }

    fn id(&self) -> u32 {
        self.id
    }

    fn is_allowed(&self) -> bool {
        is_between(1, 9999, self.id)
            && (self.edges == 2 || self.edges == 4)
            && self.angle <= 74
            && self.awning <= 1
            && self.top <= 99999
            && is_between(1, 5000, self.w)
            && is_between(1, 5000, self.h)
            && is_allowed_wind(self.wind)
    }
}

// The pane that the line of this letter at the front of some bytes says, and the bytes behind the line.
#[tactic(auto, using(crate::proofs::Lines::by_line))]
fn read_letter(bytes: &[u8], letter: u8) -> Option<(Pane, &[u8])>
    ensures { as_found result ≡ letter_line letter bytes.now }
{
    let (numbers, rest) = read_line::<9>(bytes, letter)?;
    Some((pane_of(letter, numbers), rest))
}

// The pane that a line of this letter says by its numbers. A `From` would be of the pair, which no reader would know by its name.
fn pane_of(letter: u8, numbers: [u32; 9]) -> Pane
    ensures { result ≡ pane_of letter numbers }
{
    let [id, edges, angle, awning, top, w, h, first, second] = numbers;
    Pane {
        id,
        edges,
        angle,
        awning,
        top,
        w,
        h,
        wind: wind_of(letter, first, second),
    }
}
