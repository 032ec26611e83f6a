// A sector of an image of any kind: read, and made zeros.
ghost use Rattle.std.specs.Prelude.{◌≡◌, ◌+◌, ◌<◌, ◌≤◌, length};
ghost use Rattle.geometry.specs.D64.{d64_place, last_track};
ghost use Rattle.sector.specs.Rules.{rule_of};
ghost use Rattle.image_rings.specs.Rings.{start_of, length_of};
ghost use Rattle.image_d64.specs.D64.{d64_zeroed, OnTracks};
ghost use Rattle.image_sector.specs.Media.{read_at, zeroed_at, medium_of, medium_at, on_track};
ghost use Rattle.image_sector.specs.Callers.{Complete, InPlace};

use base::{Refusal, Sector};
use image_kind::Kind;
use image_rings::{Rings, Span};
use sector::Rule;

// How an image is laid out: its kind, where its rings lie (a D64 has none), and the highest track that a directory link may name.
#[derive(Drop)]
pub struct Layout {
    pub kind: Kind,
    pub rings: Rings,
    pub highest: u8,
}

// How one track of an image is laid out: the kind of the image, and where the ring of the track lies.
#[derive(Clone, Copy, Debug, PartialEq, Eq)]
pub struct TrackLayout {
    pub kind: Kind,
    pub ring: Option<Span>,
}

impl Layout {
    // How a track is laid out.
    pub fn on_track(&self, track: u8) -> TrackLayout
        requires { (0 < track) × (track ≤ 42) }
        ensures { result ≡ on_track self.now track }
    {
        TrackLayout {
            kind: self.kind,
            ring: self.rings.ring_of(track),
        }
    }

    // A sector of an image, by the rule of its kind.
    pub fn read(&self, image: &[u8], track: u8, sector: u8) -> Sector
        requires track_nonzero { (0 < track) × (track ≤ 42) }
        requires complete { Complete self.now (length image.now) }
        ensures { result ≡ (medium_of self.now.kind self.now.rings).read image.now track sector }
    {
        self.on_track(track).read(image, track, sector)
    }
}

impl TrackLayout {
    // A sector of the track, by the rule of the image's kind.
    pub fn read(self, image: &[u8], track: u8, sector: u8) -> Sector
        requires { InPlace self (length image.now) }
        ensures { result ≡ (medium_at self.kind self.ring).read image.now track sector }
    {
        match self.kind {
            Kind::D64(_) => image_d64::d64_sector(image, track, sector),
            Kind::G64 => read_at(image, self.ring, Rule::Unique, track, sector),
            Kind::Nib => read_at(image, self.ring, Rule::Consistent, track, sector),
            Kind::Unknown => base::refused_sector(Refusal::NoRecord.number()),
        }
    }

    // Makes a sector of the track zeros, by the same rule.
    pub fn zero(self, image: &mut [u8], track: u8, sector: u8)
        requires on_tracks { OnTracks last_track track sector }
        requires in_place { InPlace self (length image.old) }
        ensures { image.new ≡ (medium_at self.kind self.ring).zeroed track sector image.old }
    {
        match self.kind {
            Kind::D64(_) => zero_block(image, track, sector),
            Kind::G64 => zero_at(image, self.ring, Rule::Unique, track, sector),
            Kind::Nib => zero_at(image, self.ring, Rule::Consistent, track, sector),
            Kind::Unknown => {}
        }
    }
}

// A sector of a ring, by a rule.
fn read_at(image: &[u8], ring: Option<Span>, rule: Rule, track: u8, sector: u8) -> Sector
    requires { start_of ring + length_of ring ≤ length image.now }
    ensures { result ≡ read_at (rule_of rule) ring image.now track sector }
{
    match ring {
        Some(span) => {
            let end = span.start + span.length;
            sector::read_by(&image[span.start..end], track, sector, rule)
        }
        None => base::refused_sector(Refusal::NoRecord.number()),
    }
}

fn zero_block(image: &mut [u8], track: u8, sector: u8)
    requires { d64_place track sector + 256 ≤ length image.old }
    ensures { image.new ≡ d64_zeroed track sector image.old }
{
    base::fill(image, geometry::d64_place(track, sector), 256, 0);
}

// Makes a sector of a ring zeros, by a rule.
fn zero_at(image: &mut [u8], ring: Option<Span>, rule: Rule, track: u8, sector: u8)
    requires { start_of ring + length_of ring ≤ length image.old }
    ensures { image.new ≡ zeroed_at (rule_of rule) ring track sector image.old }
{
    if let Some(span) = ring {
        let end = span.start + span.length;
        let zeros = [0u8; 256];
        // Refused, the ring stays as it was.
        let _ = sector::replace_by(&mut image[span.start..end], track, sector, &zeros, rule);
    }
}
