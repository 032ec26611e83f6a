// Groups of the nibble code, encoded and decoded, with a line for each set of them. What it must write was written by
// the original; where a symbol is bad, it was asked of each symbol alone (compare/README.md).
#![tactic(auto)]

use page::Page;
use replay_shared::{draw, sum};
use std::io;
use std::io::Write;

// A set of groups under way: the generator's state, how many groups there were, how many of them came back as they
// were (or were refused), the checksum of what was made, and that of the refused groups' first bad symbols.
#[derive(Drop)]
struct Part {
    state: u32,
    count: u64,
    kept: u64,
    total: u32,
    firsts: u32,
}

impl Part {
    fn new(seed: u32) -> Part {
        Part {
            state: seed,
            count: 0,
            kept: 0,
            total: sum::START,
            firsts: sum::START,
        }
    }

    // One group more.
    fn count(&mut self, kept: bool) {
        self.count = self.count.wrapping_add(1);
        self.kept = self.kept.wrapping_add(u64::from(kept));
    }

    // The generator's next bytes.
    fn draw<const N: usize>(&mut self) -> [u8; N] {
        let mut bytes = [0u8; N];
        self.state = draw::fill(&mut bytes, self.state);
        bytes
    }

    fn there_and_back(&mut self, group: [u8; 4]) {
        let code = gcr::encode_group(&group);
        self.count(gcr::decode_group(&code) == Ok(group));
        self.total = sum::mix_all(self.total, &code);
    }

    fn decode(&mut self, code: [u8; 5]) {
        let answer = gcr::decode_group(&code);
        self.count(answer.is_err());
        match answer {
            Ok(bytes) => self.total = sum::mix_all(self.total, &bytes),
            Err(illegal) => self.firsts = sum::mix(self.firsts, illegal.index),
        }
    }
}

// A line with its end, written.
fn write<W: Write>(out: &mut W, line: &mut Page) -> io::Result<()> {
    line.words(b"\n");
    out.write_all(line.written())
}

// What every line says.
fn counted(line: &mut Page, name: &[u8], p: &Part, what: &[u8]) {
    line.counted(name, p.count);
    line.counted(what, p.kept);
    line.sum(p.total);
}

fn show_back<W: Write>(out: &mut W, name: &[u8], p: &Part) -> io::Result<()> {
    let mut room = [0u8; 128];
    let mut line = Page::new(&mut room);
    counted(&mut line, name, p, b" back");
    write(out, &mut line)
}

fn show_refused<W: Write>(out: &mut W, name: &[u8], p: &Part) -> io::Result<()> {
    let mut room = [0u8; 128];
    let mut line = Page::new(&mut room);
    counted(&mut line, name, p, b" refused");
    line.words(b" first symbols");
    line.sum(p.firsts);
    write(out, &mut line)
}

// Pair k of first bytes, with two zeros behind it.
fn prefix(p: &mut Part, k: u32) {
    p.there_and_back([(k / 256 % 256) as u8, (k % 256) as u8, 0, 0]);
}

fn random_group(p: &mut Part) {
    let group = p.draw();
    p.there_and_back(group);
}

// A code of random bits: one in 256 is legal.
fn random_code(p: &mut Part) {
    let code = p.draw();
    p.decode(code);
}

// A code with one of its forty bits changed.
fn changed(code: [u8; 5], choice: u8) -> [u8; 5] {
    let bit = choice % 40;
    let mut out = code;
    out[usize::from(bit / 8)] ^= 128u8 >> (bit % 8);
    out
}

fn damaged_code(p: &mut Part) {
    let group = p.draw();
    p.state = draw::step(p.state);
    p.decode(changed(gcr::encode_group(&group), draw::byte_of(p.state)));
}

// So many turns of one kind.
fn run<F: Fn(&mut Part, u32)>(seed: u32, turns: u32, turn: F) -> Part
    requires { F.IsAlwaysCallable turn }
{
    let mut p = Part::new(seed);
    for k in 0..turns {
        turn(&mut p, k);
    }
    p
}

fn main(rt: HostRuntime) -> io::Result<()> {
    let mut out = rt.stdout();
    show_back(&mut out, b"prefixes", &run(0, 65536, prefix))?;
    show_back(
        &mut out,
        b"random",
        &run(1541, 8192, |p, _| random_group(p)),
    )?;
    show_refused(&mut out, b"codes", &run(1542, 65536, |p, _| random_code(p)))?;
    show_refused(
        &mut out,
        b"damaged",
        &run(1543, 8192, |p, _| damaged_code(p)),
    )
}
