// Sector records as a lent list of structs: row n stored and read by thin functions, and a scan that fills the rows.
#![tactic(auto)]

ghost use Rattle.std.specs.Prelude.{◌≡◌, ◌≤◌, leb, length};
ghost use Rattle.base.specs.Answers.{answer};
ghost use Rattle.ring.specs.Bit.{IsRing};
ghost use Rattle.scan.specs.Scan.{records, most_records};
ghost use Rattle.scan.specs.Answers.{scan_refusal};
ghost use Rattle.scan_rows.specs.Rows.{has_row, stored, laid, row_at};
ghost use Rattle.scan_rows.specs.Answers.{found_in, scanned_into, rows_after, nth_record};

use base::Refusal;
use scan::{Scanned, SectorRecord};

// Row n becomes `row`, and the other rows stay; the answer is whether there is a row n, and where there is none all rows stay.
pub fn store_row(rows: &mut [SectorRecord], n: usize, row: SectorRecord) -> bool
    ensures { (result ≡ has_row rows.old n) × (rows.new ≡ stored rows.old n row) }
{
    let inside = n < rows.len();
    if inside {
        rows[n] = row;
    }
    inside
}

// Refuses a scan of a ring of so many bytes into so many rows, in the order of refusals.
fn check(rows: usize, bytes: usize) -> Result<(), Refusal>
    ensures { result ≡ answer (scan_refusal (leb most_records rows) bytes) tt }
{
    if rows < scan::MOST_RECORDS {
        return Err(Refusal::NoRoom);
    }
    ring::check(bytes)
}

// The records of one revolution from `start_bit` on, in rows from the first on; the answer is how many there are, and the first bad symbol
// that was met.
fn list_rows(ring: &[u8], track: u8, start_bit: usize, rows: &mut [SectorRecord]) -> Scanned
    requires { (IsRing ring.now) × (most_records ≤ length rows.old) }
    ensures { (result ≡ found_in ring.now track start_bit) × (rows.new ≡ laid (records ring.now track start_bit) rows.old) }
{
    let bits = 8 * ring.len();
    let start = start_bit % bits;
    let end = start + bits;
    // Lent to each search: in what a search returns it would stand on the stack twice.
    let mut payload = [0u8; 256];
    let mut bit = start;
    let mut n: usize = 0;
    let mut bad = None;
    loop {
        let met = scan::next_met(ring, track, end, bit, &mut payload);
        bad = bad.or(met.bad);
        let Some(found) = met.next else {
            return Scanned { records: n, bad };
        };
        store_row(rows, n, scan::a_record(found.sector, found.place, payload));
        n += 1;
        bit = found.place + geometry::BLOCK_BITS;
    }
}

// The sector records of a ring, one revolution from `start_bit` on, in a lent list of records. Room for the most records is
// needed, whatever is found.
pub fn scan_into_rows(
    ring: &[u8],
    track: u8,
    start_bit: usize,
    rows: &mut [SectorRecord],
) -> Result<Scanned, Refusal>
    ensures { (result ≡ scanned_into ring.now track start_bit rows.old)
        × (rows.new ≡ rows_after ring.now track start_bit rows.old) }
{
    check(rows.len(), ring.len())?;
    Ok(list_rows(ring, track, start_bit, rows))
}

// Row n, where there is one.
pub fn read_row(rows: &[SectorRecord], n: usize) -> Option<SectorRecord>
    ensures { result ≡ row_at rows.now n }
{
    if n < rows.len() { Some(rows[n]) } else { None }
}

// Record n of a scan, where there is one, or the scan's refusal: for callers that hold no list of records.
pub fn nth_record(
    ring: &[u8],
    track: u8,
    start_bit: usize,
    n: usize,
) -> Result<Option<SectorRecord>, Refusal>
    ensures { result ≡ nth_record ring.now track start_bit n }
{
    let mut rows = [scan::zero_record(); scan::MOST_RECORDS];
    let found = scan_into_rows(ring, track, start_bit, &mut rows)?;
    Ok(read_row(&rows[0..found.records], n))
}
