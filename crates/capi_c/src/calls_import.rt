// The call of document 02's A.5. No list of figures is lent: the three are the caller's own.
ghost use Rattle.std.specs.Prelude.{◌≡◌};
ghost use Rattle.spec_import.specs.CallsImport.{import_refusal, import_numbers, import_scratch};
ghost use Rattle.capi_import.specs.Sent.{sent_c};

// A numbering from another mesh tool, as pairs of old number and new, with its three figures.
#[unsafe(no_mangle)]
pub extern "C" fn wagonepoch_import_numbering(
    starts: &[u16],
    neighbours: &[u16],
    counts: &[u16],
    pairs: &[u16],
    bandwidth: u64,
    profile: u64,
    front: u64,
    numbers: &mut [u16],
    scratch: &mut [u16],
) -> u16
    ensures value { result ≡ import_refusal starts.now neighbours.now counts.now pairs.now (sent_c bandwidth profile front) numbers.old scratch.old }
    ensures numbers_value { numbers.new ≡ import_numbers starts.now neighbours.now counts.now pairs.now (sent_c bandwidth profile front) numbers.old scratch.old }
    ensures scratch_value { scratch.new ≡ import_scratch starts.now neighbours.now counts.now pairs.now (sent_c bandwidth profile front) numbers.old scratch.old }
{
    capi::calls_import::wagonepoch_import_numbering(
        starts, neighbours, counts, pairs, bandwidth, profile, front, numbers, scratch,
    )
}
