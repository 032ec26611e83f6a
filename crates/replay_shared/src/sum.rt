// The checksum: FNV-1a of 32 bits.
ghost use Rattle.std.specs.Prelude.{◌≡◌};
ghost use Rattle.replay_shared.specs.Sum.{mixed, mixed_all, low_first};

// The sum of no bytes.
pub const START: u32 = 0x811C9DC5;

// One byte more.
#[tactic(auto, unfolding(crate::specs::Sum::mixed))]
pub fn mix(sum: u32, byte: u8) -> u32
    ensures { result ≡ mixed sum byte }
{
    (sum ^ u32::from(byte)).wrapping_mul(16777619)
}

// The bytes of a part more.
pub fn mix_all(sum: u32, part: &[u8]) -> u32
    ensures { result ≡ mixed_all sum part.now }
{
    part.iter().fold(sum, |s, x| mix(s, *x))
}

// The eight bytes of a number more, the lowest first.
pub fn mix_number(sum: u32, n: u64) -> u32
    ensures { result ≡ mixed_all sum (low_first 8 n) }
{
    mix_all(sum, &n.to_le_bytes())
}
