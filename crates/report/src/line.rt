// Texts as they grow: numbers, fields of lines, and whole lines. Each function asks for room for the longest that it may write, and that
// its numbers have no more digits: each asks for another amount, so no type says it for all.
ghost use Rattle.std.specs.Prelude.{◌≡◌, ◌+◌, ◌*◌, ◌≤◌, ◌∷◌, ◌++◌, length};
ghost use Rattle.arrayvec.specs.ArrayString.{array_string_len};
ghost use Rattle.job_line.specs.Bytes.{space};
ghost use Rattle.job_line.specs.WrittenNumber.{written_number, written_numbers};
ghost use Rattle.report.specs.Text.{pair_line};
ghost use Rattle.report.specs.Internal.Steps.{FourDigits};

use arrayvec::ArrayString;
use itoa::Buffer;

// A text before it is copied to the caller's buffer, which has as much room.
pub type Text = ArrayString<4096>;

// A number of at most five digits, by `itoa`: `write!` into a text of fixed room does not say when it fits.
#[tactic(auto, using(crate::proofs::Written::number_printed, crate::proofs::Written::number_five, crate::proofs::Written::number_four))]
pub fn push_number(text: &mut Text, n: usize)
    requires { (n ≤ 99999) × (array_string_len text.old + 5 ≤ 4096) }
    ensures bytes { text.new.bytes ≡ text.old.bytes ++ written_number n }
    ensures five { array_string_len text.new ≤ array_string_len text.old + 5 }
    ensures four { n ≤ 9999 → array_string_len text.new ≤ array_string_len text.old + 4 }
{
    text.push_str(Buffer::new().format(n));
}

// A space and a number of at most five digits.
pub fn push_field(text: &mut Text, n: usize)
    requires { (n ≤ 99999) × (array_string_len text.old + 6 ≤ 4096) }
    ensures bytes { text.new.bytes ≡ text.old.bytes ++ (space ∷ written_number n) }
    ensures five { array_string_len text.new ≤ array_string_len text.old + 6 }
    ensures four { n ≤ 9999 → array_string_len text.new ≤ array_string_len text.old + 5 }
{
    text.push(' ');
    push_number(text, n);
}

// Numbers of at most four digits, a space before each.
#[tactic(auto, using(crate::proofs::Written::fields_next), unfolding(job_line::specs::WrittenNumber::written_numbers))]
pub fn push_fields(text: &mut Text, numbers: &[u32])
    requires { FourDigits numbers.now × (array_string_len text.old + (5 * length numbers.now + 1) ≤ 4096) }
    ensures bytes { text.new.bytes ≡ text.old.bytes ++ written_numbers numbers.now }
    ensures room { array_string_len text.new ≤ array_string_len text.old + 5 * length numbers.now }
{
    for n in numbers {
        push_field(text, *n as usize);
    }
}

// A line of two numbers of at most four digits.
#[tactic(auto, unfolding(job_line::specs::WrittenNumber::written_numbers))]
pub fn push_pair(text: &mut Text, a: usize, b: usize)
    requires { (a ≤ 9999) × (b ≤ 9999) × (array_string_len text.old + 10 ≤ 4096) }
    ensures bytes { text.new.bytes ≡ text.old.bytes ++ pair_line a b }
    ensures room { array_string_len text.new ≤ array_string_len text.old + 10 }
{
    push_number(text, a);
    push_field(text, b);
    text.push('\n');
}
