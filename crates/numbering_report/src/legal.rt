// The report of a part, from what was found of it.
ghost use Rattle.std.specs.Prelude.{◌≡◌};
ghost use Rattle.spec.specs.Numbering.{direction_of};
ghost use Rattle.numbering_part.specs.Part.{found_meaning};
ghost use Rattle.numbering_report.specs.Answers.{direction_meaning, report_meaning};

use crate::answer::{Direction, PartReport};
use numbering_part::shape::PartFound;

// Reversed exactly if the part's numbers were turned.
fn direction(turned: bool) -> Direction
    ensures { direction_meaning result ≡ direction_of turned }
{
    if turned {
        return Direction::Reversed;
    }
    Direction::Forward
}

// The report of the part of which this was found.
pub fn report(f: PartFound) -> PartReport
    ensures { report_meaning result ≡ found_meaning f }
{
    let way = direction(f.turned);
    PartReport {
        v: f.v,
        u: f.u,
        k: f.k,
        width: f.width,
        passes: f.passes,
        direction: way,
    }
}
