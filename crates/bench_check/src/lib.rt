// The check of a content in a library of its own, as a host's send works it.

#![tactic(auto)]

// The register after the content's octets.
#[unsafe(no_mangle)]
pub extern "C" fn bench_check(content: &[u8]) -> u16 {
    fcs::check(content)
}
