// What the programs that replay the original's answers share: the generator, the checksum.
#![tactic(auto)]

pub mod draw;
pub mod sum;
