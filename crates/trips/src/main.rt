// The script beside it: edges, captured, missed and passed over, and all that opens a closed latch, with the whole card.
#![tactic(auto)]

use std::io;

fn main(rt: HostRuntime) -> io::Result<()> {
    script::run(&rt)
}
