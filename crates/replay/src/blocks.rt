// Blocks coded and decoded.
use crate::rows::Row;
use crate::{rows, says};
use base::Refusal;
use gcr_blocks::Undecoded;
use std::io;
use std::io::Write;

// Row b.
pub fn encode<W: Write>(out: &mut W, room: &mut [u8], source: &[u8], row: Row) -> io::Result<()> {
    let bytes = rows::part(source, row.c as usize, row.d as usize);
    says::answered(out, b"coded", gcr_blocks::encode_gcr_block(bytes, room))?;
    says::sum_of(out, room)?;
    says::end(out)
}

fn tell_decoded<W: Write>(out: &mut W, answer: Result<usize, Undecoded>) -> io::Result<()> {
    match answer {
        Ok(n) => says::number(out, b"decoded", n as u64),
        Err(Undecoded::Refused(why)) => says::refused(out, why),
        Err(Undecoded::Illegal(k)) => {
            says::refused(out, Refusal::IllegalSymbol)?;
            says::number(out, b" symbol", k as u64)
        }
    }
}

// Row d.
pub fn decode<W: Write>(out: &mut W, room: &mut [u8], source: &[u8], row: Row) -> io::Result<()> {
    let code = rows::part(source, row.c as usize, row.d as usize);
    tell_decoded(out, gcr_blocks::decode_gcr_block(code, room))?;
    says::sum_of(out, room)?;
    says::end(out)
}
