// A line of output, written piece by piece.
use base::Refusal;
use page::Page;
use replay_shared::sum;
use scan::BadSymbol;
use std::io;
use std::io::Write;

pub fn words<W: Write>(out: &mut W, text: &[u8]) -> io::Result<()> {
    out.write_all(text)
}

pub fn end<W: Write>(out: &mut W) -> io::Result<()> {
    words(out, b"\n")
}

// A word and a number.
pub fn number<W: Write>(out: &mut W, word: &[u8], n: u64) -> io::Result<()> {
    let mut piece = [0u8; 32];
    let mut page = Page::new(&mut piece);
    page.counted(word, n);
    words(out, page.written())
}

// A refusal by its number.
pub fn refused_by<W: Write>(out: &mut W, number: u8) -> io::Result<()> {
    let mut piece = [0u8; 32];
    let mut page = Page::new(&mut piece);
    page.refused(number);
    words(out, page.written())
}

pub fn refused<W: Write>(out: &mut W, why: Refusal) -> io::Result<()> {
    refused_by(out, why.number())
}

// A word and the number that was answered, or the refusal.
pub fn answered<W: Write>(
    out: &mut W,
    word: &[u8],
    answer: Result<usize, Refusal>,
) -> io::Result<()> {
    match answer {
        Ok(n) => number(out, word, n as u64),
        Err(why) => refused(out, why),
    }
}

pub fn checksum<W: Write>(out: &mut W, s: u32) -> io::Result<()> {
    let mut piece = [0u8; 32];
    let mut page = Page::new(&mut piece);
    page.sum(s);
    words(out, page.written())
}

fn symbol<W: Write>(out: &mut W, block: &[u8], index: usize, bit: usize) -> io::Result<()> {
    words(out, block)?;
    number(out, b" symbol", index as u64)?;
    number(out, b" bit", bit as u64)
}

// The first bad symbol, where there is one.
pub fn bad<W: Write>(out: &mut W, met: Option<BadSymbol>) -> io::Result<()> {
    match met {
        None => Ok(()),
        Some(BadSymbol::InHeader(k, bit)) => symbol(out, b" header", k, bit),
        Some(BadSymbol::InData(k, bit)) => symbol(out, b" data", k, bit),
    }
}

// The checksum of some bytes.
pub fn sum_of<W: Write>(out: &mut W, bytes: &[u8]) -> io::Result<()> {
    checksum(out, sum::mix_all(sum::START, bytes))
}
