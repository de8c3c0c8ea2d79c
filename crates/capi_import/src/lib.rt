// What the C interface does of a numbering from another mesh tool: three figures as plain numbers, and the answer as one.
#![tactic(auto)]

ghost use Rattle.std.specs.Prelude.{◌≡◌};
ghost use Rattle.spec_import.specs.CallsImport.{import_refusal, import_numbers, import_scratch};
ghost use Rattle.capi_import.specs.Sent.{sent_c};

use numbering_import::SuppliedFigures;

// A supplier's pairs and figures, tested against our measures. It returns 0 or the number of a refusal, and no figures.
pub fn import_numbering(
    starts: &[u16],
    neighbours: &[u16],
    counts: &[u16],
    pairs: &[u16],
    bandwidth: u64,
    profile: u64,
    front: u64,
    numbers: &mut [u16],
    scratch: &mut [u16],
) -> u16
    ensures value { result ≡ import_refusal starts.now neighbours.now counts.now pairs.now (sent_c bandwidth profile front) numbers.old scratch.old }
    ensures numbers_value { numbers.new ≡ import_numbers starts.now neighbours.now counts.now pairs.now (sent_c bandwidth profile front) numbers.old scratch.old }
    ensures scratch_value { scratch.new ≡ import_scratch starts.now neighbours.now counts.now pairs.now (sent_c bandwidth profile front) numbers.old scratch.old }
{
    let sent = SuppliedFigures {
        bandwidth,
        profile,
        front,
    };
    match numbering_import::import_numbering(
        starts, neighbours, counts, pairs, sent, numbers, scratch,
    ) {
        Ok(()) => 0,
        Err(refusal) => u16::from(refusal),
    }
}
