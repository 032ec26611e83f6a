// Images of the three kinds, cleared.
use crate::rows::Row;
use crate::says;
use base::Refusal;
use reclaim::Counts;
use std::io;
use std::io::Write;

fn cleared(image: &mut [u8], kind: u32) -> Result<Counts, Refusal> {
    match kind {
        0 => reclaim::clear_d64(image),
        1 => reclaim::clear_g64(image),
        _ => reclaim::clear_nib(image),
    }
}

fn tell<W: Write>(out: &mut W, answer: Result<Counts, Refusal>) -> io::Result<()> {
    match answer {
        Ok(counts) => {
            says::number(out, b"free", counts.free as u64)?;
            says::number(out, b" changed", counts.changed as u64)
        }
        Err(why) => says::refused(out, why),
    }
}

// Row x.
pub fn clear<W: Write>(out: &mut W, image: &mut [u8], row: Row) -> io::Result<()> {
    tell(out, cleared(image, row.c))?;
    says::sum_of(out, image)?;
    says::end(out)
}
