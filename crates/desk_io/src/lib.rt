// What the programs share: lent bytes filled from a reader, an image read, the line of a refusal. Other output goes by std's own
// `write_all`.
#![tactic(auto)]

ghost use Rattle.std.specs.Prelude.{◌≡◌, ℕ, ◌+◌, ◌-◌, ◌<◌, ◌≤◌, length, take, drop, None, IfSome, IfOk, OnOk, OnErr};
ghost use Rattle.std.specs.Io.{ReadsAtMost, WritesAtMost};
ghost use Rattle.std.specs.Io.KnownBytes.{Appends, Consumes, IsAtEnd, Keeps};
ghost use Rattle.base.specs.Answers.{number_of};
ghost use Rattle.page.specs.Page.{all_of};
ghost use Rattle.page_lines.specs.Answers.{refused_line};
ghost use Rattle.desk_io.specs.Words.{too_long};

use base::Refusal;
use page::Page;
use std::io::{Error, ErrorKind, Read, Result, Write};

// One read, tried again where a signal interrupts it.
fn read_retrying<R: Read>(reader: &mut R, buffer: &mut [u8]) -> Result<usize>
    ensures bound { ReadsAtMost result buffer.new }
    ensures ok { IfOk result (λ n. Consumes (R.remaining reader.old) (R.remaining reader.new) (take n buffer.new)) }
    ensures end { IfOk result (λ n. n ≡ 0 → 0 < length buffer.old → IsAtEnd (R.remaining reader.new)) }
    ensures err { OnErr result (Keeps (R.remaining reader.old) (R.remaining reader.new)) }
{
    for _ in 0..u64::MAX {
        match reader.read(buffer) {
            Ok(n) => return Ok(n),
            Err(e) => {
                if e.kind() != ErrorKind::Interrupted {
                    return Err(e);
                }
            }
        }
    }
    Err(Error::new(ErrorKind::TimedOut, "each of 2^64 reads was interrupted"))
}

// One read into the bytes from `at` on.
fn read_at<R: Read>(reader: &mut R, buffer: &mut [u8], at: usize) -> Result<usize>
    requires { at < length buffer.old }
    ensures front { take at buffer.new ≡ take at buffer.old }
    ensures fits { IfOk result (λ n. at + n ≤ length buffer.new) }
    ensures ok { IfOk result (λ n. Consumes (R.remaining reader.old) (R.remaining reader.new) (take n (drop at buffer.new))) }
    ensures end { IfOk result (λ n. n ≡ 0 → IsAtEnd (R.remaining reader.new)) }
    ensures err { OnErr result (Keeps (R.remaining reader.old) (R.remaining reader.new)) }
{
    read_retrying(reader, &mut buffer[at..])
}

// Reads until the bytes are full or the input ends, and answers how many were read. They stand at the front of the lent bytes, after an
// error too.
pub fn fill<R: Read>(reader: &mut R, buffer: &mut [u8]) -> Result<usize>
    ensures bound { ReadsAtMost result buffer.new }
    ensures bytes { IfOk result (λ n. Consumes (R.remaining reader.old) (R.remaining reader.new) (take n buffer.new)) }
    ensures end { IfOk result (λ n. n < length buffer.new → IsAtEnd (R.remaining reader.new)) }
    ensures none_lost { OnErr result ((k : ℕ) × Consumes (R.remaining reader.old) (R.remaining reader.new) (take k buffer.new)) }
{
    let mut done = 0;
    while done < buffer.len() {
        let n = read_at(reader, buffer, done)?;
        if n == 0 {
            return Ok(done);
        }
        done += n;
    }
    Ok(done)
}

// One write, tried again where a signal interrupts it.
fn write_retrying<W: Write>(writer: &mut W, bytes: &[u8]) -> Result<usize>
    ensures bound { WritesAtMost result bytes.now }
    ensures ok { IfOk result (λ n. Appends (W.contents writer.old) (W.contents writer.new) (take n bytes.now)) }
    ensures err { OnErr result (Keeps (W.contents writer.old) (W.contents writer.new)) }
{
    for _ in 0..u64::MAX {
        match writer.write(bytes) {
            Ok(n) => return Ok(n),
            Err(e) => {
                if e.kind() != ErrorKind::Interrupted {
                    return Err(e);
                }
            }
        }
    }
    Err(Error::new(ErrorKind::TimedOut, "each of 2^64 writes was interrupted"))
}

// Writes the bytes as std's own `write_all` does, which promises nothing after an error. Here the first of them were then written, none
// twice.
fn put_all<W: Write>(out: &mut W, bytes: &[u8]) -> Result<()>
    ensures all { OnOk result (Appends (W.contents out.old) (W.contents out.new) bytes.now) }
    ensures part { OnErr result ((k : ℕ) × Appends (W.contents out.old) (W.contents out.new) (take k bytes.now)) }
{
    let mut done = 0;
    while done < bytes.len() {
        let n = write_retrying(out, &bytes[done..])?;
        if n == 0 {
            return Err(Error::new(ErrorKind::WriteZero, "failed to write whole buffer"));
        }
        done += n;
    }
    Ok(())
}

// An image read into the lent room: how long it is. Of one that fills the room only that it is too long is told.
pub fn read_image<R: Read, E: Write>(
    input: &mut R,
    err: &mut E,
    room: &mut [u8],
) -> Result<Option<usize>>
    ensures fits { IfOk result (λ read. IfSome read (λ n. n < length room.new)) }
    ensures bytes { IfOk result (λ read. IfSome read (λ n. Consumes (R.remaining input.old) (R.remaining input.new) (take n room.new))) }
    ensures end { IfOk result (λ read. IfSome read (λ n. IsAtEnd (R.remaining input.new))) }
    ensures none_lost { OnErr result ((k : ℕ) × Consumes (R.remaining input.old) (R.remaining input.new) (take k room.new)) }
    ensures silent { IfOk result (λ read. IfSome read (λ n. Keeps (E.contents err.old) (E.contents err.new))) }
    ensures told { IfOk result (λ read. read ≡ None → Appends (E.contents err.old) (E.contents err.new) too_long) }
    ensures filled { IfOk result (λ read. read ≡ None → Consumes (R.remaining input.old) (R.remaining input.new) room.new) }
    ensures part { OnErr result ((k : ℕ) × Appends (E.contents err.old) (E.contents err.new) (take k too_long)) }
{
    let n = fill(input, room)?;
    if n == room.len() {
        put_all(err, b"too long\n")?;
        return Ok(None);
    }
    Ok(Some(n))
}

// The line of a refusal.
pub fn refuse<W: Write>(err: &mut W, why: Refusal) -> Result<()>
    ensures done { OnOk result (Appends (W.contents err.old) (W.contents err.new) (all_of (refused_line (number_of why)))) }
    ensures part { OnErr result ((k : ℕ) × Appends (W.contents err.old) (W.contents err.new) (take k (all_of (refused_line (number_of why))))) }
{
    let mut line = [0u8; 128];
    let mut page = Page::new(&mut line);
    page_lines::refused_line(&mut page, why.number());
    put_all(err, page.written())
}

#[cfg(test)]
mod tests;
