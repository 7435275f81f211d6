// The program `cabinet` on a damaged sample: a distance that it asks for is a NaN. It is a program of its own since `rt ci` runs each
// on one sample.
#![tactic(auto)]

fn main(rt: HostRuntime) {
    cabinet_job::run(&rt);
}
