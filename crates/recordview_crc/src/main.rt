// recordview on the records of lineview_crc.

#![tactic(auto)]

fn main(rt: HostRuntime) {
    recordview_run::view_input(&rt);
}
