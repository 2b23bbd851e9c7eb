// The script beside it: wanted periods, and the nearest pair of dividers to each.
#![tactic(auto)]

use std::io;

fn main(rt: HostRuntime) -> io::Result<()> {
    script::run(&rt)
}
