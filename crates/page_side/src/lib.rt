// A picture of a disk's side as SVG text, put on a page: what stands before the tracks and behind them, and the arcs of a track of an
// image, one a sector.
ghost use Rattle.std.specs.Prelude.{◌≡◌, ◌<◌, ◌≤◌, length};
ghost use Rattle.page.specs.Page.{writes};
ghost use Rattle.page_side.specs.Frame.{svg_head, entry_text, whole_key, header_key, data_key, svg_end};
ghost use Rattle.page_side.specs.Arcs.{radius_of, around_of, arc_of, begins_at, ring_text, dash_text, title_text, arc_text, svg_track};
ghost use Rattle.page_track.specs.Tracks.{if_shown};
ghost use Rattle.page_side.specs.TrackArcs.{arcs_text};

use page::Page;
use track_read::{FALSE_DATA, FALSE_HEADER, HANDED_OUT, NO_DATA, NO_HEADER, NO_SYNC};

// What stands before the first track.
pub fn put_svg_head(page: &mut Page)
    ensures { page.new ≡ writes page.old svg_head }
{
    page.words(
        b"<svg xmlns=\"http://www.w3.org/2000/svg\" viewBox=\"-41000 -41000 82000 99000\">\n",
    );
    page.words(
        b"<style>circle{fill:none;stroke-width:600}path{stroke-width:1500}text{font:2200px sans-serif}\n",
    );
    page.words(
        b".s0{stroke:#ddd}.s1{stroke:#2a7}.s2{stroke:#05a}.s3{stroke:#000}.s4{stroke:#c40}.s5{stroke:#fa2}.s9{stroke:#6bf}</style>\n",
    );
    page.words(
        b"<rect x=\"-41000\" y=\"-41000\" width=\"82000\" height=\"99000\" fill=\"#fff\"/>\n<g transform=\"rotate(-90)\">\n",
    );
}

// An entry of the legend: a stroke, and the name of the status whose colour it has.
fn put_entry(page: &mut Page, stroke: &[u8], status: u8)
    ensures { page.new ≡ writes page.old (entry_text stroke.now status) }
{
    page.words(stroke);
    page_status::put_name(page, status);
    page.words(b"</text>\n");
}

fn put_whole_key(page: &mut Page)
    ensures { page.new ≡ writes page.old whole_key }
{
    put_entry(
        page,
        b"<path class=\"s1\" d=\"M-38000 43500h3000\"/><text x=\"-34000\" y=\"44300\">",
        HANDED_OUT,
    );
    put_entry(
        page,
        b"<path class=\"s3\" d=\"M-38000 47500h3000\"/><text x=\"-34000\" y=\"48300\">",
        NO_SYNC,
    );
    put_entry(
        page,
        b"<path class=\"s0\" d=\"M-38000 51500h3000\"/><text x=\"-34000\" y=\"52300\">",
        0,
    );
}

fn put_header_key(page: &mut Page)
    ensures { page.new ≡ writes page.old header_key }
{
    put_entry(
        page,
        b"<path class=\"s2\" d=\"M-11000 43500h3000\"/><text x=\"-7000\" y=\"44300\">",
        NO_HEADER,
    );
    put_entry(
        page,
        b"<path class=\"s9\" d=\"M-11000 47500h3000\"/><text x=\"-7000\" y=\"48300\">",
        FALSE_HEADER,
    );
}

fn put_data_key(page: &mut Page)
    ensures { page.new ≡ writes page.old data_key }
{
    put_entry(
        page,
        b"<path class=\"s4\" d=\"M16000 43500h3000\"/><text x=\"20000\" y=\"44300\">",
        NO_DATA,
    );
    put_entry(
        page,
        b"<path class=\"s5\" d=\"M16000 47500h3000\"/><text x=\"20000\" y=\"48300\">",
        FALSE_DATA,
    );
}

// What stands behind the last track: the words that say what the colours mean.
pub fn put_svg_end(page: &mut Page)
    ensures { page.new ≡ writes page.old svg_end }
{
    page.words(b"</g>\n");
    put_whole_key(page);
    put_header_key(page);
    put_data_key(page);
    page.words(
        b"<text x=\"-38000\" y=\"56500\">Track 1 is outermost. Sectors by number, clockwise from the top.</text>\n</svg>\n",
    );
}

fn radius_of(track: u8) -> u64
    ensures { result ≡ radius_of track }
{
    800 * u64::from(50u8.saturating_sub(track))
}

// How long the line of a ring is.
fn around_of(track: u8) -> u64
    ensures { result ≡ around_of track }
{
    710 * radius_of(track) / 113
}

// How long the arc of one of n sectors is.
fn arc_of(track: u8, n: usize) -> u64
    requires { 0 < n }
    ensures { (result ≡ arc_of track n) × (result ≤ around_of track) }
{
    let share = around_of(track) / n as u64;
    share * 9 / 10
}

// Where on the ring the arc of sector j begins.
fn begins_at(track: u8, n: usize, j: usize) -> u64
    requires { j < n }
    ensures { (result ≡ begins_at track n j) × (result ≤ around_of track) }
{
    let share = around_of(track) / n as u64;
    share * j as u64
}

fn put_ring(page: &mut Page, track: u8, n: usize)
    requires { 0 < n }
    ensures { page.new ≡ writes page.old (ring_text track n) }
{
    let arc = arc_of(track, n);
    page.valued(b"\" r=\"", radius_of(track));
    page.valued(b"\" stroke-dasharray=\"", arc);
    page.number(around_of(track) - arc);
}

fn put_dash(page: &mut Page, track: u8, n: usize, j: usize)
    requires { j < n }
    ensures { page.new ≡ writes page.old (dash_text track n j) }
{
    let around = around_of(track);
    let begins = begins_at(track, n, j);
    page.valued(b"\" stroke-dashoffset=\"", around - begins);
}

fn put_title(page: &mut Page, track: u8, j: usize, status: u8)
    ensures { page.new ≡ writes page.old (title_text track j status) }
{
    page.counted(b"\"><title>track", u64::from(track));
    page.counted(b" sector", j as u64);
    page.words(b": ");
    page_status::put_name(page, status);
    page.words(b"</title></circle>\n");
}

// The arc of a sector.
fn put_arc(page: &mut Page, track: u8, statuses: &[u8], j: usize)
    requires { j < length statuses.now }
    ensures { page.new ≡ writes page.old (arc_text track statuses.now j) }
{
    let status = statuses[j];
    page.valued(b"<circle class=\"s", u64::from(status));
    put_ring(page, track, statuses.len());
    put_dash(page, track, statuses.len(), j);
    put_title(page, track, j, status);
}

// The arcs of a track, by the statuses of its sectors.
fn put_svg_track(page: &mut Page, track: u8, statuses: &[u8])
    ensures { page.new ≡ writes page.old (svg_track track statuses.now) }
{
    for j in 0..statuses.len() {
        put_arc(page, track, statuses, j);
    }
}

fn put_arcs_if_shown(page: &mut Page, track: u8, statuses: &[u8])
    ensures { page.new ≡ writes page.old (if_shown svg_track track statuses.now) }
{
    if image_statuses::is_shown(track, statuses) {
        put_svg_track(page, track, statuses);
    }
}

// The arcs of a track of an image, for the picture.
pub fn put_arcs(page: &mut Page, image: &[u8], track: u8)
    ensures { page.new ≡ writes page.old (arcs_text image.now track) }
{
    let mut room = [0u8; 21];
    let _ = image_statuses::track_statuses(image, track, &mut room);
    let count = usize::from(geometry::sectors_per_track(track));
    put_arcs_if_shown(page, track, page::so_far(&room, count));
}
