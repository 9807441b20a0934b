// Bytes of a lent slice: numbers, bits, runs of bits, parts. Knows nothing of volumes.
#![tactic(auto)]

pub mod bits;
pub mod numbers;
pub mod parts;
pub mod runs;
