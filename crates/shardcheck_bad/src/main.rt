// Judges the shard on standard input, here where there is no tag.bin.
#![tactic(auto)]

use std::io;

fn main(rt: HostRuntime) -> io::Result<()> {
    shardline::run(&rt)
}
