// The rings of an image, one for each of 84 half-tracks: where each lies.
ghost use Rattle.std.specs.Prelude.{◌≡◌, ◌<◌, ◌≤◌, set};
ghost use Rattle.image_rings.specs.Rings.{span_of, no_rings, with_span, half_track, ring_place};

// Where a ring lies in an image: from which byte on, and how many bytes.
#[derive(Clone, Copy, Debug, PartialEq, Eq)]
pub struct Span {
    pub start: usize,
    pub length: usize,
}

// What stands in the table where there is no ring.
const ABSENT: Span = Span {
    start: 0,
    length: 0,
};

// The rings of the 84 half-tracks. One that is absent has length 0: an `Option` each would take half as much stack again, which
// docs/SPEED.md bars.
#[derive(Drop)]
pub struct Rings {
    spans: [Span; 84],
}

impl Rings {
    // No ring at all.
    pub fn none() -> Self
        ensures { result ≡ no_rings }
    {
        Rings {
            spans: [ABSENT; 84],
        }
    }

    // Says where the ring of a half-track lies.
    pub fn set(&mut self, half: usize, ring: Option<Span>)
        requires { half < 84 }
        ensures { self.new ≡ with_span self.old half ring }
    {
        self.spans[half] = ring.unwrap_or(ABSENT);
    }

    // Where the ring of a half-track lies.
    pub fn half_track(&self, half: usize) -> Option<Span>
        requires { half < 84 }
        ensures { result ≡ half_track self.now half }
    {
        let span = self.spans[half];
        if span.length == 0 {
            return None;
        }
        Some(span)
    }

    // Where the ring of a track lies: that of half-track 2(track - 1).
    #[tactic(auto, unfolding(crate::specs::Rings::ring_place))]
    pub fn ring_of(&self, track: u8) -> Option<Span>
        requires { (0 < track) × (track ≤ 42) }
        ensures { result ≡ ring_place self.now track }
    {
        self.half_track(2 * (usize::from(track) - 1))
    }
}
