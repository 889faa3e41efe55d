// lineview on a longer line: a program of its own, since the test runs each program on one input.

#![tactic(auto)]

fn main(rt: HostRuntime) {
    lineview_run::view_input(&rt);
}
