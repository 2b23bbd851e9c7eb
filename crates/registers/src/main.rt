// The script beside it: calls that are done, and the whole card after each.
#![tactic(auto)]

use std::io;

fn main(rt: HostRuntime) -> io::Result<()> {
    script::run(&rt)
}
