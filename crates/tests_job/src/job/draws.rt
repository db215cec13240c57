//! Numbers that are drawn, the same at each run.

/// The last number that was drawn, which is not 0.
#[derive(Drop)]
pub struct Draws(pub u64);

impl Draws {
    /// The next number. Each factor and modulus are those of the minimal standard generator.
    pub fn next(&mut self) -> u64 {
        self.0 = self.0.wrapping_mul(48271) % 2147483647;
        self.0
    }

    /// A number below a limit, or 0 where the limit is 0.
    pub fn below(&mut self, limit: u64) -> u64 {
        let number = self.next();
        if limit == 0 { 0 } else { number % limit }
    }

    /// A word of 64 bits.
    pub fn word(&mut self) -> u64 {
        self.next().wrapping_mul(0x9e37_79b9_7f4a_7c15)
    }
}
