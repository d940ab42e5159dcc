// The line of a glass: specs/GlassLine.antt.
ghost use Rattle.std.specs.Prelude.{◌≡◌, ◌||◌, eqb};
ghost use Rattle.job_glass.specs.GlassLine.{allowed_glass, glass_form};
ghost use Rattle.job_glass.specs.Internal.Values.{allowed_glass_id};

use crate::Glass;
use job_line::read_line;
use job_part::{Entry, is_between};

impl Entry for Glass {
    ghost form = { glass_form };

    ghost id_high = { allowed_glass_id };

    #[tactic(auto, using(crate::proofs::Lines::by_letter))]
    fn read(bytes: &[u8]) -> Option<(Glass, &[u8])> {
        let (numbers, rest) = read_line::<8>(bytes, b'G')?;
        Some((Glass::from(numbers), rest))
    }

    fn id(&self) -> u32 {
        self.id
    }

    fn is_allowed(&self) -> bool {
        is_between(1, 9999, self.id)
            && is_between(1, 4, self.kind)
            && is_thickness(self.thick)
            && is_between(1, 9999, self.w)
            && is_between(1, 9999, self.h)
            && is_between(1, 99999, self.two)
            && is_between(1, 99999, self.four)
            && self.stock <= 999
    }
}

fn is_thickness(thick: u32) -> bool
    ensures { result ≡ (eqb thick 6 || eqb thick 8 || eqb thick 10 || eqb thick 12) }
{
    matches!(thick, 6 | 8 | 10 | 12)
}

// The glass that a line's numbers say, in the line's order.
impl From<[u32; 8]> for Glass {
    ghost use Rattle.std.specs.Prelude.{◌≡◌};
    ghost use Rattle.job_glass.specs.GlassLine.{glass_of};

    ghost from_gives = { λ numbers glass. glass ≡ glass_of numbers };

    fn from(numbers: [u32; 8]) -> Glass {
        let [id, kind, thick, w, h, two, four, stock] = numbers;
        Glass {
            id,
            kind,
            thick,
            w,
            h,
            two,
            four,
            stock,
        }
    }
}
