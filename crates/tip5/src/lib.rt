// Tip5: the permutation of sixteen words, its trace, and the sponge and the hashes that are made of it.
#![tactic(auto)]

pub mod hash;
pub mod matrix;
pub mod permutation;
pub mod round;
pub mod sbox;
pub mod split_and_lookup;
pub mod sponge;
pub mod words;
