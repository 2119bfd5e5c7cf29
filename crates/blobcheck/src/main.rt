// Counts the blob file on standard input, here one of four entries.
#![tactic(auto)]

use std::io;

fn main(rt: HostRuntime) -> io::Result<()> {
    blobline::run(&rt)
}
