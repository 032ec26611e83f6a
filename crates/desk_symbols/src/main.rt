// The first bad symbol of a ring: reads an envelope and its ring from standard input, as the lister does, and prints a line. A refusal goes
// to standard error.
#![tactic(auto)]

use page::Page;
use std::io;
use std::io::Write;

// One byte more than the longest input that is taken, so that a longer one is seen to be too long and is not cut.
const ROOM: usize = 8203;

fn put_symbol<W: Write>(out: &mut W, input: &[u8]) -> io::Result<()> {
    let mut line = [0u8; 64];
    let mut page = Page::new(&mut line);
    page_symbols::put_line(&mut page, lister::ring_symbol(input));
    out.write_all(page.written())
}

fn tell<O: Write, E: Write>(out: &mut O, err: &mut E, input: &[u8]) -> io::Result<()> {
    match lister::check_input(input) {
        Ok(()) => put_symbol(out, input),
        Err(why) => desk_io::refuse(err, why),
    }
}

fn main(rt: HostRuntime) -> io::Result<()> {
    let mut input = [0u8; ROOM];
    let n = desk_io::fill(&mut rt.stdin(), &mut input)?;
    tell(&mut rt.stdout(), &mut rt.stderr(), &input[..n])
}
