// The first bad symbol of a ring, and no records.
ghost use Rattle.std.specs.Prelude.{◌≡◌};
ghost use Rattle.ring.specs.Bit.{IsRing};
ghost use Rattle.scan.specs.BadSymbols.{bad_symbol};
ghost use Rattle.scan_symbols.specs.First.{first_bad_of};

use scan::BadSymbol;

// Visit by visit, up to the first that meets one.
fn first_met(ring: &[u8], track: u8, start_bit: usize) -> Option<BadSymbol>
    requires { IsRing ring.now }
    ensures { result ≡ bad_symbol ring.now track start_bit }
{
    let bits = 8 * ring.len();
    let start = start_bit % bits;
    let end = start + bits;
    let mut payload = [0u8; 256];
    let mut bit = start;
    while let Some(visit) = scan::next_visit(ring, track, end, bit, &mut payload) {
        if let Some(bad) = scan::bad_in(visit.met, visit.place, bits) {
            return Some(bad);
        }
        bit = scan::next_bit(visit.place, visit.met.data);
    }
    None
}

// The first bad symbol of a scan of one revolution from `start_bit` on; none where the ring is refused.
pub fn first_bad(ring: &[u8], track: u8, start_bit: usize) -> Option<BadSymbol>
    ensures { result ≡ first_bad_of ring.now track start_bit }
{
    if ring::check(ring.len()).is_err() {
        return None;
    }
    first_met(ring, track, start_bit)
}
