// Counts the blob file on standard input, here one whose second entry says that it has more data than there are.
#![tactic(auto)]

use std::io;

fn main(rt: HostRuntime) -> io::Result<()> {
    blobline::run(&rt)
}
