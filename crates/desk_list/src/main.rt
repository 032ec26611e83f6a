// The ring lister: reads an envelope and its ring from standard input, and prints the listing.
#![tactic(auto)]

use std::io;
use std::io::Write;

// One byte more than the longest input that is listed, so that a longer one is seen to be too long and is not cut.
const ROOM: usize = 8203;

fn list<W: Write>(out: &mut W, input: &[u8]) -> io::Result<()> {
    let mut listing = [0u8; lister::LONGEST_LISTING];
    let answer = lister::list_ring(input, &mut listing);
    match answer {
        Ok(n) => out.write_all(&listing[..n]),
        Err(_) => Ok(()),
    }
}

fn main(rt: HostRuntime) -> io::Result<()> {
    let mut input = [0u8; ROOM];
    let n = desk_io::fill(&mut rt.stdin(), &mut input)?;
    list(&mut rt.stdout(), &input[..n])
}
