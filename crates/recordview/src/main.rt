// Reads records from standard input and writes a line for each to standard output, and totals.

#![tactic(auto)]

fn main(rt: HostRuntime) {
    recordview_run::view_input(&rt);
}
