// The lines of a master that was written, put on a page.
ghost use Rattle.std.specs.Prelude.{◌≡◌, ◌≤◌, length};
ghost use Rattle.geometry.specs.Zones.{sectors_of};
ghost use Rattle.page.specs.Page.{writes};
ghost use Rattle.page_status.specs.Marks.{noted, noted_to};
ghost use Rattle.image_statuses.specs.Statuses.{d64_statuses};
ghost use Rattle.page_master.specs.Master.{written_line, spoiled_line, spoiled_lines, spoiled_text, tracks_text, master_text};

use page::Page;
use page_lines::Detail;

// How many tracks and bytes were written.
fn put_written(page: &mut Page, tracks: u8, bytes: usize)
    ensures { page.new ≡ writes page.old (written_line tracks bytes) }
{
    page.counted(b"tracks", u64::from(tracks));
    page.counted(b" bytes", bytes as u64);
    page.words(b"\n");
}

// The line of a track with these statuses; none where every sector reads.
fn put_line(page: &mut Page, track: u8, statuses: &[u8])
    ensures { page.new ≡ writes page.old (spoiled_line track statuses.now) }
{
    if page_lines::count_reading(statuses) != statuses.len() {
        page.counted(b"track", u64::from(track));
        page.words(b" spoiled");
        page_lines::put_unread(page, statuses, Detail::Status);
        page.words(b"\n");
    }
}

// The line of a track of a D64, whose statuses are marked.
fn put_track(page: &mut Page, d64: &[u8], highest: u8, track: u8, met: &mut [bool; 256])
    requires { highest ≤ 42 }
    ensures page_after { page.new ≡ writes page.old (spoiled_line track (d64_statuses d64.now highest track)) }
    ensures met_after { met.new ≡ noted (d64_statuses d64.now highest track) met.old }
{
    let mut room = [0u8; 21];
    let count = usize::from(geometry::sectors_per_track(track));
    let statuses = &mut room[..count];
    image_statuses::d64_statuses(d64, highest, track, statuses);
    page_status::note(statuses, met);
    put_line(page, track, statuses);
}

fn put_lines(page: &mut Page, d64: &[u8], highest: u8, met: &mut [bool; 256])
    requires { highest ≤ 42 }
    ensures page_after { page.new ≡ writes page.old (spoiled_lines d64.now highest highest) }
    ensures met_after { met.new ≡ noted_to (d64_statuses d64.now highest) highest met.old }
{
    for track in 1..highest + 1 {
        put_track(page, d64, highest, track, met);
    }
}

// The lines of all tracks that have a spoiled sector, and what the numbers in them mean.
fn put_spoiled(page: &mut Page, d64: &[u8], highest: u8)
    requires { highest ≤ 42 }
    ensures { page.new ≡ writes page.old (spoiled_text d64.now highest) }
{
    let mut met = [false; 256];
    put_lines(page, d64, highest, &mut met);
    page_status::put_legend(page, &met);
}

fn put_tracks(page: &mut Page, d64: &[u8], highest: u8, bytes: usize)
    requires { highest ≤ 42 }
    ensures { page.new ≡ writes page.old (tracks_text highest d64.now bytes) }
{
    put_written(page, highest, bytes);
    put_spoiled(page, d64, highest);
}

// What is told of a master of so many bytes, by its D64; nothing where it is none.
pub fn put_master(page: &mut Page, d64: &[u8], bytes: usize)
    ensures { page.new ≡ writes page.old (master_text d64.now bytes) }
{
    if let Some(highest) = geometry::tracks_of(d64.len()) {
        put_tracks(page, d64, highest, bytes);
    }
}
