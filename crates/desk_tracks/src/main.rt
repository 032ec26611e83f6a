// The tracks of an image, read from standard input: a line for each, with the sectors that read and those that do not, and behind them
// what the statuses of these mean. A refusal goes to standard error.
#![tactic(auto)]

use page::Page;
use std::io;
use std::io::{Read, Write};

fn put_side<W: Write>(out: &mut W, image: &[u8]) -> io::Result<()> {
    let mut room = [0u8; 16384];
    let mut page = Page::new(&mut room);
    page_track::put_side(&mut page, image);
    out.write_all(page.written())
}

fn list<O: Write, E: Write>(out: &mut O, err: &mut E, image: &[u8]) -> io::Result<()> {
    match image_kind::image_fault(image) {
        Ok(()) => put_side(out, image),
        Err(why) => desk_io::refuse(err, why),
    }
}

fn run<R: Read, O: Write, E: Write>(
    input: &mut R,
    out: &mut O,
    err: &mut E,
    buffer: &mut [u8],
) -> io::Result<()> {
    let Some(n) = desk_io::read_image(input, err, buffer)? else {
        return Ok(());
    };
    list(out, err, &buffer[..n])
}

fn main(rt: HostRuntime) -> io::Result<()> {
    let mut buffer = desk_room::image();
    run(
        &mut rt.stdin(),
        &mut rt.stdout(),
        &mut rt.stderr(),
        &mut buffer,
    )
}
