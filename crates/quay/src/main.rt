// The paper's shards from the quay, and their neighbours: one line for each, with what it is, whether it is the same however it is cut,
// and whether it is written again byte for byte.
#![tactic(auto)]

use std::io;
use told::Quay;

mod cases;
mod large;
mod orders;
mod shard;
mod told;

fn main(rt: HostRuntime) -> io::Result<()> {
    let mut quay = Quay {
        out: io::writer(&rt),
        alloc: rt.alloc(),
    };
    cases::run(&mut quay)?;
    orders::run(&mut quay)?;
    large::run(&mut quay)
}
