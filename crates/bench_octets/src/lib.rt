// The engine receive_octets in a library of its own, as a host links it: a whole line through one link.

#![tactic(auto)]

use octet_reception::ByOctets;

// See `run_line` of bench_run: how many records came. The switches are a number, for the C interface.
#[unsafe(no_mangle)]
pub extern "C" fn bench_octets(
    switches: u64,
    lengths: &[u16],
    line: &[u8],
    pool: &mut [u8],
    descriptors: &mut [u16],
    records: &mut [u8],
    output: &mut [u8],
) -> usize {
    bench_run::run_line::<ByOctets>(switches, lengths, line, pool, descriptors, records, output)
}
