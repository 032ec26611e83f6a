// The slots of a NIB file, read from standard input: a line for each. A refusal, or that the file is too long, goes to
// standard error.
#![tactic(auto)]

ghost use Rattle.std.specs.Prelude.{◌≡◌, ◌≤◌};
ghost use Rattle.nib_catalogue.specs.Catalogue.{catalogue_of};

use page::Page;
use std::io;
use std::io::{Read, Write};

fn put_line<W: Write>(out: &mut W, file: &[u8], pairs: usize, slot: usize) -> io::Result<()>
    requires { (catalogue_of file.now ≡ Ok pairs) × (slot ≤ 83) }
{
    let mut room = [0u8; 2048];
    let mut page = Page::new(&mut room);
    page_slot::put_slot(&mut page, file, pairs, slot);
    out.write_all(page.written())
}

fn put_lines<W: Write>(out: &mut W, file: &[u8], pairs: usize) -> io::Result<()>
    requires { catalogue_of file.now ≡ Ok pairs }
{
    for slot in 0..84 {
        put_line(out, file, pairs, slot)?;
    }
    Ok(())
}

// The catalogue is read once, for all slots.
fn list<O: Write, E: Write>(out: &mut O, err: &mut E, file: &[u8]) -> io::Result<()> {
    match nib_catalogue::read_catalogue(file) {
        Ok(pairs) => put_lines(out, file, pairs),
        Err(why) => desk_io::refuse(err, why),
    }
}

fn run<R: Read, O: Write, E: Write>(
    input: &mut R,
    out: &mut O,
    err: &mut E,
    buffer: &mut [u8],
) -> io::Result<()> {
    let Some(n) = desk_io::read_image(input, err, buffer)? else {
        return Ok(());
    };
    list(out, err, &buffer[..n])
}

fn main(rt: HostRuntime) -> io::Result<()> {
    let mut buffer = desk_room::image();
    run(
        &mut rt.stdin(),
        &mut rt.stdout(),
        &mut rt.stderr(),
        &mut buffer,
    )
}
