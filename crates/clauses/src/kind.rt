// Clause 1, the kind: specs/Kind.antt.
ghost use Rattle.std.specs.Prelude.{◌≡◌};
ghost use Rattle.clauses.specs.Kind.{kind_fails};

use job_glass::Glass;
use job_pane::Pane;

// Whether a glass is of a kind that may not stand so high. The kind is a number of its line.
pub fn is_barred(pane: Pane, glass: Glass) -> bool
    ensures { result ≡ kind_fails pane glass }
{
    3000 <= pane.top && glass.kind == 4
}
