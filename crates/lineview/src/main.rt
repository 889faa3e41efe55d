// Reads line octets from standard input and writes their records to standard output.

#![tactic(auto)]

fn main(rt: HostRuntime) {
    lineview_run::view_input(&rt);
}
