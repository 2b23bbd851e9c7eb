// The script beside it: frames written and read, and rows of a stream's elements, with the stream's record after each.
#![tactic(auto)]

use std::io;

fn main(rt: HostRuntime) -> io::Result<()> {
    script::run(&rt)
}
