// The script beside it: each number through the call that gives it, and every kind of torn card.
#![tactic(auto)]

use std::io;

fn main(rt: HostRuntime) -> io::Result<()> {
    script::run(&rt)
}
