// The lines of an image's tracks, put on a page.
ghost use Rattle.std.specs.Prelude.{◌≡◌};
ghost use Rattle.page.specs.Page.{writes};
ghost use Rattle.page_status.specs.Marks.{noted, noted_to};
ghost use Rattle.image_statuses.specs.Statuses.{statuses_of};
ghost use Rattle.image_statuses.specs.Symbols.{symbol_of};
ghost use Rattle.page_track.specs.Tracks.{symbol_text, line_in, if_shown, track_text, lines_text, side_text};

use page::Page;
use page_lines::Detail;

// Where a sector is missing, the first bad symbol of its track; else the track is not scanned again.
fn put_symbol(page: &mut Page, image: &[u8], track: u8, statuses: &[u8])
    ensures { page.new ≡ writes page.old (symbol_text statuses.now (symbol_of image.now track)) }
{
    if page_lines::count_reading(statuses) != statuses.len() {
        let bad = image_statuses::track_symbol(image, track);
        page_symbols::put_behind(page, bad);
    }
}

// The line of a track, by its statuses.
fn put_line(page: &mut Page, image: &[u8], track: u8, statuses: &[u8])
    ensures { page.new ≡ writes page.old (line_in image.now track statuses.now) }
{
    page.counted(b"track", u64::from(track));
    if base::any_nonzero(statuses) {
        page_lines::tally(page, b" reads", statuses, Detail::Status);
        put_symbol(page, image, track, statuses);
        page.words(b"\n");
    } else {
        page.words(b" absent\n");
    }
}

fn put_if_shown(page: &mut Page, image: &[u8], track: u8, statuses: &[u8])
    ensures { page.new ≡ writes page.old (if_shown (line_in image.now) track statuses.now) }
{
    if image_statuses::is_shown(track, statuses) {
        put_line(page, image, track, statuses);
    }
}

// The line of a track of an image; its statuses are marked.
fn put_track(page: &mut Page, image: &[u8], track: u8, met: &mut [bool; 256])
    ensures page_after { page.new ≡ writes page.old (track_text image.now track) }
    ensures met_after { met.new ≡ noted (statuses_of image.now track) met.old }
{
    let mut room = [0u8; 21];
    let _ = image_statuses::track_statuses(image, track, &mut room);
    let count = usize::from(geometry::sectors_per_track(track));
    let statuses = page::so_far(&room, count);
    page_status::note(statuses, met);
    put_if_shown(page, image, track, statuses);
}

fn put_lines(page: &mut Page, image: &[u8], met: &mut [bool; 256])
    ensures page_after { page.new ≡ writes page.old (lines_text image.now 42) }
    ensures met_after { met.new ≡ noted_to (statuses_of image.now) 42 met.old }
{
    for track in 1..=image_statuses::HIGHEST_TRACK {
        put_track(page, image, track, met);
    }
}

// The lines of all tracks of an image, and what each number in them means.
pub fn put_side(page: &mut Page, image: &[u8])
    ensures { page.new ≡ writes page.old (side_text image.now) }
{
    let mut met = [false; 256];
    put_lines(page, image, &mut met);
    page_status::put_legend(page, &met);
}
