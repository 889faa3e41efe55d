// lineview on a line of 2,000 units that an independent program makes, tests/crc_units.py: likewise a program of its own.

#![tactic(auto)]

fn main(rt: HostRuntime) {
    lineview_run::view_input(&rt);
}
