// Pseudo-random numbers, the same in every run.

// The next number.
pub fn next_seed(seed: u64) -> u64 {
    seed % 2147483648 * 1103515245 + 12345
}

// A number below 16.
pub fn side_of(seed: u64) -> u32 {
    (seed / 65536 % 16) as u32
}
