// Prints the candidates of a cabinet in the order of their exact distances: see cabinet_job.
#![tactic(auto)]

fn main(rt: HostRuntime) {
    cabinet_job::run(&rt);
}
