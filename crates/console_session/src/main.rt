// The program console on the session that README shows.

#![tactic(auto)]

fn main(rt: HostRuntime) {
    console_run::answer_input(&rt);
}
