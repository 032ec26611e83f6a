// The orbit of a capture: the first bytes of a window, as many as one turn of the disk took.
#![tactic(auto)]

ghost use Rattle.std.specs.Prelude.{◌≡◌, ◌-◌, ◌≤◌, length};
ghost use Rattle.nib_orbit.specs.Orbit.{
  agreements as agreements_of,
  estimate as estimate_of,
  better,
  best_of,
  chosen_estimate,
  recovered,
  lowest,
  highest,
  middle,
};

// A span, its agreements and its observations.
#[derive(Clone, Copy, Debug, PartialEq, Eq)]
pub struct Estimate {
    pub span: usize,
    pub agreements: usize,
    pub observations: usize,
}

// The shortest and the longest span of a zone, and the one in the middle.
#[derive(Clone, Copy)]
struct Zone {
    lowest: usize,
    highest: usize,
    middle: usize,
}

// The pairs of equal bytes of a window that lie a span apart.
fn agreements(window: &[u8], span: usize) -> usize
    requires { span ≤ length window.now }
    ensures { (result ≡ agreements_of window.now span) × (result ≤ length window.now - span) }
{
    // An index, and no chain of iterators: nearly all of the time goes into this loop, and a chain has not been timed.
    let n = window.len() - span;
    let mut count: usize = 0;
    for i in 0..n {
        if window[i] == window[i + span] {
            count += 1;
        }
    }
    count
}

// What a window says of a span.
fn measure(window: &[u8], span: usize) -> Estimate
    requires { (length window.now ≡ 8192) × (span ≤ 8192) }
    ensures { (result ≡ estimate_of window.now span) × (result.agreements ≤ 8192) × (result.observations ≤ 8192) }
{
    let agreements = agreements(window, span);
    Estimate {
        span,
        agreements,
        observations: 8192 - span,
    }
}

impl Estimate {
    // Is it better than another?
    fn is_better(self, other: Estimate, middle: usize) -> bool
        requires mine { (self.agreements ≤ 8192) × (self.observations ≤ 8192) }
        requires its { (other.agreements ≤ 8192) × (other.observations ≤ 8192) }
        ensures { result ≡ better middle self other }
    {
        let mine = self.agreements * other.observations;
        let its = other.agreements * self.observations;
        if mine == its {
            let d = self.span.abs_diff(middle);
            let e = other.span.abs_diff(middle);
            if d == e {
                return self.span < other.span;
            }
            return d < e;
        }
        its < mine
    }
}

// The best of the spans from low to high.
fn best_span(window: &[u8], middle: usize, low: usize, high: usize) -> Estimate
    requires { (length window.now ≡ 8192) × (low ≤ high) × (high ≤ 8192) }
    ensures { (result ≡ best_of window.now middle low (high - low)) × (result.agreements ≤ 8192) }
{
    let mut best = measure(window, low);
    for span in low + 1..=high {
        let next = measure(window, span);
        if next.is_better(best, middle) {
            best = next;
        }
    }
    best
}

// The limits of a zone; zones are counted modulo 4.
fn limits_of(zone: u8) -> Zone
    ensures lowest { result.lowest ≡ lowest zone }
    ensures highest { result.highest ≡ highest zone }
    ensures middle { result.middle ≡ middle zone }
{
    // No table: at each look-up it would be stored to the stack whole.
    match zone % 4 {
        0 => Zone {
            lowest: 6183,
            highest: 6311,
            middle: 6247,
        },
        1 => Zone {
            lowest: 6598,
            highest: 6726,
            middle: 6662,
        },
        2 => Zone {
            lowest: 7073,
            highest: 7201,
            middle: 7137,
        },
        _ => Zone {
            lowest: 7616,
            highest: 7824,
            middle: 7720,
        },
    }
}

// The span that is taken for one turn of the disk, and what speaks for it.
pub fn estimate_orbit(window: &[u8], zone: u8) -> Estimate
    requires { length window.now ≡ 8192 }
    ensures { (result ≡ chosen_estimate window.now zone) × (result.span ≤ 8192) }
{
    let limits = limits_of(zone);
    let best = best_span(window, limits.middle, limits.lowest, limits.highest);
    if best.agreements * 4 < best.observations {
        return measure(window, limits.middle);
    }
    best
}

// The recovered ring, as the first bytes of the window; an empty part of a window of another length than 8,192.
pub fn recover_orbit(window: &[u8], zone: u8) -> &[u8]
    ensures { result.now ≡ recovered window.now zone }
{
    if window.len() != 8192 {
        return &window[0..0];
    }
    let chosen = estimate_orbit(window, zone);
    let span = chosen.span;
    &window[0..span]
}
