// The bench, on the input beside it.
#![tactic(auto)]

use std::io;

fn main(rt: HostRuntime) -> io::Result<()> {
    shell::bench(&rt)
}
