// Reads line octets from standard input and writes the units handed over to standard output, as a pcap file of link type 140 (MTP2).

#![tactic(auto)]

use std::process::ExitCode;

fn main(rt: HostRuntime) -> ExitCode {
    unitdump_run::dump_input(&rt)
}
