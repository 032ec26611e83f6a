// A picture of an image's side, read from standard input: SVG text, one ring a track and one arc a sector. A refusal goes to standard
// error.
#![tactic(auto)]

use page::Page;
use std::io;
use std::io::{Read, Write};

fn put_track<W: Write>(out: &mut W, image: &[u8], track: u8) -> io::Result<()> {
    let mut room = [0u8; 8192];
    let mut page = Page::new(&mut room);
    page_side::put_arcs(&mut page, image, track);
    out.write_all(page.written())
}

fn put_tracks<W: Write>(out: &mut W, image: &[u8]) -> io::Result<()> {
    for track in 1..=image_statuses::HIGHEST_TRACK {
        put_track(out, image, track)?;
    }
    Ok(())
}

fn put_head<W: Write>(out: &mut W) -> io::Result<()> {
    let mut room = [0u8; 512];
    let mut page = Page::new(&mut room);
    page_side::put_svg_head(&mut page);
    out.write_all(page.written())
}

fn put_end<W: Write>(out: &mut W) -> io::Result<()> {
    let mut room = [0u8; 1024];
    let mut page = Page::new(&mut room);
    page_side::put_svg_end(&mut page);
    out.write_all(page.written())
}

fn draw<O: Write, E: Write>(out: &mut O, err: &mut E, image: &[u8]) -> io::Result<()> {
    if let Err(why) = image_kind::image_fault(image) {
        return desk_io::refuse(err, why);
    }
    put_head(out)?;
    put_tracks(out, image)?;
    put_end(out)
}

fn run<R: Read, O: Write, E: Write>(
    input: &mut R,
    out: &mut O,
    err: &mut E,
    buffer: &mut [u8],
) -> io::Result<()> {
    let Some(n) = desk_io::read_image(input, err, buffer)? else {
        return Ok(());
    };
    draw(out, err, &buffer[..n])
}

fn main(rt: HostRuntime) -> io::Result<()> {
    let mut buffer = desk_room::image();
    run(
        &mut rt.stdin(),
        &mut rt.stdout(),
        &mut rt.stderr(),
        &mut buffer,
    )
}
