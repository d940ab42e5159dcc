// A line of either part: specs/Line.antt.
ghost use Rattle.std.specs.Prelude.{◌≡◌, ◌∷◌, ◌≢◌, ℕ, List, MatchOption};
ghost use Rattle.job_line.specs.Line.{line, only};
ghost use Rattle.job_line.specs.Internal.Steps.{as_found};

use crate::number::read_number;

// The line of `letter` and N numbers at the front of some bytes: its numbers, and the bytes behind its newline.
#[tactic(auto, using(crate::proofs::Lines::by_parts))]
pub fn read_line<const N: usize>(bytes: &[u8], letter: u8) -> Option<([u32; N], &[u8])>
    ensures { as_found result ≡ line (only letter) N bytes.now }
{
    let mut rest = behind_byte(bytes, letter)?;
    let mut numbers = [0; N];
    for number in &mut numbers {
        let (value, behind) = read_number(behind_byte(rest, b' ')?)?;
        *number = value;
        rest = behind;
    }
    let rest = behind_byte(rest, b'\n')?;
    Some((numbers, rest))
}

// The bytes behind a byte, where it comes next: `strip_prefix`, with a contract of the one byte.
fn behind_byte(bytes: &[u8], byte: u8) -> Option<&[u8]>
    ensures { MatchOption result ((rest : List ℕ) → bytes.now ≢ byte ∷ rest) (λ rest. bytes.now ≡ byte ∷ rest.now) }
{
    bytes.strip_prefix(&[byte])
}
