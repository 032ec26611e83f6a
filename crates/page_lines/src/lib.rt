// What the desk's lines have in common, put on a page: how many sectors read, the line of a refusal, the line of what was cleared.
ghost use Rattle.std.specs.Prelude.{◌≡◌, ◌<◌, length};
ghost use Rattle.base.specs.Lists.{count_of};
ghost use Rattle.page.specs.Page.{writes};
ghost use Rattle.page_lines.specs.Tally.{status_text, detail_text, unread_at, unread, missing_text, tally_text};
ghost use Rattle.page_lines.specs.Answers.{refused_line, cleared_line};

use page::Page;

// What is told of a sector that does not read.
#[derive(Clone, Copy, Debug, PartialEq, Eq)]
pub enum Detail {
    Number,
    Status,
}

// How many statuses are 1.
pub fn count_reading(statuses: &[u8]) -> usize
    ensures { result ≡ count_of 1 statuses.now }
{
    statuses.iter().filter(|status| **status == 1).count()
}

fn put_status(page: &mut Page, status: u8)
    ensures { page.new ≡ writes page.old (status_text status) }
{
    page.valued(b" (", u64::from(status));
    page.words(b")");
}

// What is told of a sector besides its number.
fn put_detail(page: &mut Page, detail: Detail, status: u8)
    ensures { page.new ≡ writes page.old (detail_text detail status) }
{
    match detail {
        Detail::Number => (),
        Detail::Status => put_status(page, status),
    }
}

// A sector, where it does not read.
fn put_unread_at(page: &mut Page, statuses: &[u8], detail: Detail, j: usize)
    requires { j < length statuses.now }
    ensures { page.new ≡ writes page.old (unread_at detail statuses.now j) }
{
    if statuses[j] != 1 {
        page.number(j as u64);
        put_detail(page, detail, statuses[j]);
    }
}

// All sectors that do not read.
pub fn put_unread(page: &mut Page, statuses: &[u8], detail: Detail)
    ensures { page.new ≡ writes page.old (unread detail statuses.now) }
{
    for j in 0..statuses.len() {
        put_unread_at(page, statuses, detail, j);
    }
}

fn put_missing(page: &mut Page, statuses: &[u8], detail: Detail)
    ensures { page.new ≡ writes page.old (missing_text detail statuses.now) }
{
    page.words(b" missing");
    put_unread(page, statuses, detail);
}

// How many sectors read, of how many, and those that do not.
pub fn tally(page: &mut Page, word: &[u8], statuses: &[u8], detail: Detail)
    ensures { page.new ≡ writes page.old (tally_text detail word.now statuses.now) }
{
    let count = count_reading(statuses);
    page.counted(word, count as u64);
    page.counted(b" of", statuses.len() as u64);
    if count != statuses.len() {
        put_missing(page, statuses, detail);
    }
}

// The line of a refusal.
pub fn refused_line(page: &mut Page, number: u8)
    ensures { page.new ≡ writes page.old (refused_line number) }
{
    page.refused(number);
    page.words(b"\n");
}

// The line of what was cleared.
pub fn cleared_line(page: &mut Page, free: usize, changed: usize)
    ensures { page.new ≡ writes page.old (cleared_line free changed) }
{
    page.counted(b"free", free as u64);
    page.counted(b" changed", changed as u64);
    page.words(b"\n");
}
