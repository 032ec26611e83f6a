// Writes the master of a D64: the image is read from standard input, its G64 goes to standard output, and the lines of what was written
// to standard error. Refused, only that line is written; of a file over 1 MiB only that it is too long.
#![tactic(auto)]

use page::Page;
use std::io;
use std::io::{Read, Write};

fn tell<W: Write>(err: &mut W, d64: &[u8], bytes: usize) -> io::Result<()> {
    let mut room = [0u8; 8192];
    let mut page = Page::new(&mut room);
    page_master::put_master(&mut page, d64, bytes);
    err.write_all(page.written())
}

fn write<O: Write, E: Write>(
    out: &mut O,
    err: &mut E,
    d64: &[u8],
    master: &mut [u8],
) -> io::Result<()> {
    match g64_write::d64_to_g64(d64, master) {
        Ok(bytes) => {
            out.write_all(page::so_far(master, bytes))?;
            tell(err, d64, bytes)
        }
        Err(why) => desk_io::refuse(err, why),
    }
}

fn run<R: Read, O: Write, E: Write>(
    input: &mut R,
    out: &mut O,
    err: &mut E,
    buffer: &mut [u8],
    master: &mut [u8],
) -> io::Result<()> {
    let Some(n) = desk_io::read_image(input, err, buffer)? else {
        return Ok(());
    };
    write(out, err, &buffer[..n], master)
}

fn main(rt: HostRuntime) -> io::Result<()> {
    let mut buffer = desk_room::image();
    let mut master = desk_room::master();
    run(
        &mut rt.stdin(),
        &mut rt.stdout(),
        &mut rt.stderr(),
        &mut buffer,
        &mut master,
    )
}
