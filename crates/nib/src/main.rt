// nib, the bench at the command line.
#![tactic(auto)]

fn main(rt: HostRuntime) {
    nib_app::nib(rt);
}
