// The generator: the same numbers on both sides.
ghost use Rattle.std.specs.Prelude.{◌≡◌};
ghost use Rattle.replay_shared.specs.Draw.{stepped, drawn_byte, Filled};

// One step.
#[tactic(auto, unfolding(crate::specs::Draw::stepped))]
pub fn step(state: u32) -> u32
    ensures { result ≡ stepped state }
{
    state.wrapping_mul(1664525).wrapping_add(1013904223)
}

// The byte that a state stands for.
#[tactic(auto, unfolding(crate::specs::Draw::drawn_byte))]
pub fn byte_of(state: u32) -> u8
    ensures { result ≡ drawn_byte state }
{
    (state >> 24) as u8
}

// A part filled with the bytes that follow a seed; the state to go on from.
pub fn fill(part: &mut [u8], seed: u32) -> u32
    ensures { Filled part.old seed part.new result }
{
    let mut state = seed;
    for byte in part.iter_mut() {
        state = step(state);
        *byte = byte_of(state);
    }
    state
}
