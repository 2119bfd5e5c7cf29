// Judges the shard on standard input, here the empty one of 144 bytes.
#![tactic(auto)]

use std::io;

fn main(rt: HostRuntime) -> io::Result<()> {
    shardline::run(&rt)
}
