// What the status of a sector means, in words, put on a page; which statuses were met.
ghost use Rattle.std.specs.Prelude.{Bool, false, ◌≡◌, ℕ, [], ◌∷◌, get_or};
ghost use Rattle.page.specs.Page.{writes};
ghost use Rattle.page_status.specs.Marks.{noted};
ghost use Rattle.page_status.specs.Meanings.{status_name, status_note, meaning_line, meant_text, legend_text};

use page::Page;
use track_read::{FALSE_DATA, FALSE_HEADER, HANDED_OUT, NO_DATA, NO_HEADER, NO_SYNC};

// The name of a status.
fn name_of(status: u8) -> &'static [u8]
    ensures { result.now ≡ status_name status }
{
    match status {
        HANDED_OUT => b"reads",
        NO_HEADER => b"no header",
        NO_SYNC => b"no sync",
        NO_DATA => b"no data block",
        FALSE_DATA => b"data checksum",
        FALSE_HEADER => b"header checksum",
        _ => b"no such track",
    }
}

// What stands there, and where to look.
fn note_of(status: u8) -> &'static [u8]
    ensures { result.now ≡ status_note status }
{
    match status {
        NO_HEADER => b"; nothing names this sector: look at the headers",
        NO_SYNC => b"; the track is blank, or nothing of it was read",
        NO_DATA => b"; its header is good: look behind it",
        FALSE_DATA => b"; its header is good, and its data is there with wrong bits",
        FALSE_HEADER => b"; its header is there with wrong bits, and the data may be good",
        _ => b"",
    }
}

// The name, put on a page.
pub fn put_name(page: &mut Page, status: u8)
    ensures { page.new ≡ writes page.old (status_name status ∷ []) }
{
    page.words(name_of(status));
}

fn put_meaning(page: &mut Page, status: u8)
    ensures { page.new ≡ writes page.old (meaning_line status) }
{
    page.decimal(u64::from(status));
    page.words(b": ");
    page.words(name_of(status));
    page.words(note_of(status));
    page.words(b"\n");
}

fn put_meant(page: &mut Page, met: &[bool; 256], status: u8)
    ensures { page.new ≡ writes page.old (meant_text (λ (n : ℕ). get_or met.now n false) status) }
{
    if met[usize::from(status)] {
        put_meaning(page, status);
    }
}

// Each status is marked.
pub fn note(statuses: &[u8], met: &mut [bool; 256])
    ensures { met.new ≡ noted statuses.now met.old }
{
    for status in statuses {
        met[usize::from(*status)] = true;
    }
}

// A line for each number that was met.
pub fn put_legend(page: &mut Page, met: &[bool; 256])
    ensures { page.new ≡ writes page.old (legend_text (λ (n : ℕ). get_or met.now n false)) }
{
    put_meant(page, met, NO_HEADER);
    put_meant(page, met, NO_SYNC);
    put_meant(page, met, NO_DATA);
    put_meant(page, met, FALSE_DATA);
    put_meant(page, met, FALSE_HEADER);
}
