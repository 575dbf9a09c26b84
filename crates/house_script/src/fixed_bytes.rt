//! Bytes that a script's keep in memory takes in the place of random ones.
use std::io;
use std::random::RandomSource;

/// Bytes in the place of random ones, so that a script is played alike each time.
pub struct FixedBytes;

impl RandomSource for FixedBytes {
    fn fill_bytes(&self, bytes: &mut [u8]) -> io::Result<()> {
        bytes.fill(7);
        Ok(())
    }
}
