// Clears an image of any kind: read from standard input, the cleared image goes to standard output, and a line of what was done to
// standard error. Refused, only that line is written; of a file over 1 MiB only that it is too long.
#![tactic(auto)]

use page::Page;
use reclaim::Counts;
use std::io;
use std::io::{Read, Write};

fn tell<W: Write>(err: &mut W, counts: Counts) -> io::Result<()> {
    let mut line = [0u8; 128];
    let mut page = Page::new(&mut line);
    page_lines::cleared_line(&mut page, counts.free, counts.changed);
    err.write_all(page.written())
}

fn clear<O: Write, E: Write>(out: &mut O, err: &mut E, image: &mut [u8]) -> io::Result<()> {
    match reclaim::clear_any(image) {
        Ok(counts) => {
            out.write_all(image)?;
            tell(err, counts)
        }
        Err(why) => desk_io::refuse(err, why),
    }
}

fn run<R: Read, O: Write, E: Write>(
    input: &mut R,
    out: &mut O,
    err: &mut E,
    buffer: &mut [u8],
) -> io::Result<()> {
    let Some(n) = desk_io::read_image(input, err, buffer)? else {
        return Ok(());
    };
    clear(out, err, &mut buffer[..n])
}

fn main(rt: HostRuntime) -> io::Result<()> {
    let mut buffer = desk_room::image();
    run(
        &mut rt.stdin(),
        &mut rt.stdout(),
        &mut rt.stderr(),
        &mut buffer,
    )
}
