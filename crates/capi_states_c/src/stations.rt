// The station record, as C calls it.
ghost use Rattle.std.specs.Prelude.{◌≡◌, cond, ltb, length};
ghost use Rattle.capi_states.specs.Stations.{record_in};
ghost use Rattle.capi_states.specs.Stations.{record_size, record_buffer};

// The record of the groups in some bytes, into a buffer.
#[unsafe(no_mangle)]
pub extern "C" fn bench_record(bytes: &[u8], out: &mut [u8]) -> u8
    ensures { (result ≡ cond (ltb (length out.old) record_size) 8 0)
        × (out.new ≡ record_buffer (record_in bytes.now) out.old) }
{
    capi_states::stations::bench_record(bytes, out)
}
