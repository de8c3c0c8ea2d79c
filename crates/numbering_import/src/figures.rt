// The three figures.
ghost use Rattle.std.specs.Prelude.{◌≡◌};
ghost use Rattle.spec_import.specs.CallsImport.{same_figures};
ghost use Rattle.numbering_ones.specs.Three.{three};
ghost use Rattle.numbering_import.specs.Answer.{sent_three};

use crate::answer::SuppliedFigures;
use numbering_ones::Measures;

// 14: whether the figures sent are those found, none cut down.
pub(crate) fn same_figures(sent: SuppliedFigures, found: Measures) -> bool
    ensures { result ≡ same_figures (sent_three sent) (three found) }
{
    sent.bandwidth == u64::from(found.bandwidth)
        && sent.profile == u64::from(found.profile)
        && sent.front == u64::from(found.front)
}
