// A board driven by text commands: reads lines from standard input and writes what they print to standard output.

#![tactic(auto)]

fn main(rt: HostRuntime) {
    console_run::answer_input(&rt);
}
