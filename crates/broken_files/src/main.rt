// Reads the job files of a list on its standard input, and compares what comes out with what the list says of each.
// host/vectors/broken_files.py makes the list from document 01, and says there what its bytes are.
#![tactic(auto)]

mod entry;
mod trial;

use entry::Entry;
use reading::read_full;
use std::io;
use std::io::Read;
use trial::right;

// No file is longer: one byte more than a file may have, and one more, so that a list with a longer one differs.
const ROOM: usize = 65538;

// The next entry, and the file behind it. Where the list ends in the file, it goes on with what stood in the space.
fn tried(rt: &impl Print, list: &mut impl Read, i: u64, space: &mut [u8]) -> io::Result<bool> {
    let entry = Entry::read(list)?;
    let most = entry::least(entry.length, space.len());
    let file = &mut space[..most];
    let n = read_full(list, file)?;
    right(rt, i, &entry, file, n)
}

fn main(rt: HostRuntime) -> io::Result<()> {
    let mut list = rt.stdin();
    let mut space = vec![in rt.alloc(); 0u8; ROOM]?;
    let count = entry::next(&mut list)?;
    let mut differ: u64 = 0;
    for i in 0..count {
        if !tried(&rt, &mut list, i, &mut space)? {
            differ = differ.wrapping_add(1);
        }
    }
    println!(rt; "{count} entries, {differ} differ")
}
