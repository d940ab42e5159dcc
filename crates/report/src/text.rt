// The texts: of a refusal, and of a placing.
ghost use Rattle.std.specs.Prelude.{◌≡◌, ◌+◌, ◌*◌, ◌≤◌, ◌++◌, length};
ghost use Rattle.arrayvec.specs.ArrayString.{array_string_len};
ghost use Rattle.causes.specs.Cause.{number_of};
ghost use Rattle.job_line.specs.Bytes.{bytes_of};
ghost use Rattle.job_file.specs.Entries.{pane_ids_of};
ghost use Rattle.report.specs.Text.{text_line, pane_lines, placing_text, refusal_text};
ghost use Rattle.report.specs.Internal.Steps.{FourDigits, PaneAnswers};

use crate::line::{Text, push_field, push_fields, push_pair};
use causes::Refusal;
use job_pane::Pane;

// The text of a refusal.
#[tactic(auto, unfolding(crate::specs::Text::refusal_text, job_line::specs::WrittenNumber::written_numbers))]
pub fn refusal_text(refusal: Refusal) -> Text
    requires { refusal.offset ≤ 99999 }
    ensures { result.bytes ≡ refusal_text (number_of refusal.cause) refusal.offset }
{
    let mut text = Text::new();
    text.push_str("refused");
    push_field(&mut text, u32::from(refusal.cause) as usize);
    push_field(&mut text, refusal.offset);
    text.push('\n');
    text
}

// The text of a placing, with an answer for each pane.
#[tactic(auto, unfolding(crate::specs::Text::placing_text))]
pub fn placing_text(panes: &[Pane], answers: &[u32], placed: usize, group: &[u32]) -> Text
    requires { PaneAnswers (pane_ids_of panes.now) answers.now × FourDigits group.now × (placed ≤ 9999) ×
        (length group.now ≤ 256) }
    ensures { result.bytes
        ≡ placing_text (pane_ids_of panes.now) answers.now (length answers.now) placed group.now }
{
    let wanted = answers.len();
    let mut text = Text::new();
    push_panes(&mut text, panes, answers);
    push_pair(&mut text, placed, wanted);
    if placed != wanted {
        push_short(&mut text, group);
    }
    text
}

// A line for each pane.
#[tactic(auto, unfolding(crate::specs::Text::pane_lines))]
fn push_panes(text: &mut Text, panes: &[Pane], answers: &[u32])
    requires { PaneAnswers (pane_ids_of panes.now) answers.now × (array_string_len text.old + 10 * length answers.now ≤ 4096) }
    ensures bytes { text.new.bytes
        ≡ text.old.bytes ++ pane_lines (pane_ids_of panes.now) answers.now (length answers.now) }
    ensures room { array_string_len text.new ≤ array_string_len text.old + 10 * length answers.now }
{
    for (pane, glass) in panes.iter().zip(answers) {
        push_pair(text, pane.id as usize, *glass as usize);
    }
}

// The last line: the word `short` and the ids of a group. That they have four digits is asked of the list, here, above and in
// `push_fields`: a struct that lends the list with that fact would be made for these three calls, and each would take the list out of it.
fn push_short(text: &mut Text, group: &[u32])
    requires { FourDigits group.now × (array_string_len text.old + (5 + (5 * length group.now + 1)) ≤ 4096) }
    ensures bytes { text.new.bytes ≡ text.old.bytes ++ text_line (bytes_of "short") group.now }
{
    text.push_str("short");
    push_fields(text, group);
    text.push('\n');
}
