// Numbers for the subsets of some loops, so that something is kept for each of them in a list.
use tce_space::{IndexSet, MAX_INDEXES};

// As many as a byte has values.
const BYTES: usize = 256;

/// The numbers of the subsets of some loops: bit `k` is set where the subset has loop `k` of them, from the least on.
///
/// It is a table for each byte of a set, so that a number is found by three reads.
#[derive(Clone, Copy)]
pub struct SubsetNumbers {
    low: [u16; BYTES],
    middle: [u16; BYTES],
    high: [u16; BYTES],
}

// Sets a bit for each byte in which the bit at the place is set.
fn set_bit(table: &mut [u16; BYTES], place: u8, bit: u16) {
    for byte in 0..BYTES {
        if byte >> (place % 8) & 1 == 1 {
            table[byte] |= bit;
        }
    }
}

impl SubsetNumbers {
    /// The numbers of the subsets of these loops.
    pub fn new(loops: IndexSet) -> SubsetNumbers {
        let mut numbers = SubsetNumbers {
            low: [0; BYTES],
            middle: [0; BYTES],
            high: [0; BYTES],
        };
        let mut bit: u16 = 1;
        for index in 0..MAX_INDEXES as u8 {
            if loops.has(index) {
                match index / 8 {
                    0 => set_bit(&mut numbers.low, index, bit),
                    1 => set_bit(&mut numbers.middle, index, bit),
                    _ => set_bit(&mut numbers.high, index, bit),
                }
                bit = bit.wrapping_mul(2);
            }
        }
        numbers
    }

    /// The number of a subset. Indexes that are none of the loops do not count.
    pub fn number(&self, subset: IndexSet) -> usize {
        let bits = subset.bits();
        let low = self.low[(bits % 256) as usize];
        let middle = self.middle[(bits / 256 % 256) as usize];
        let high = self.high[(bits / 65_536 % 256) as usize];
        (low | middle | high) as usize
    }
}
