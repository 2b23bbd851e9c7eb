// The script beside it: waits, by value and in place.
#![tactic(auto)]

use std::io;

fn main(rt: HostRuntime) -> io::Result<()> {
    script::run(&rt)
}
