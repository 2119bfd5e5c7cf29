// Judges the shard on standard input, here one with every kind of record in it.
#![tactic(auto)]

use std::io;

fn main(rt: HostRuntime) -> io::Result<()> {
    shardline::run(&rt)
}
