/// What is computed of two numbers: 64-bit words, modulo 2^64.
#[derive(Clone, Copy)]
pub enum Arithmetic {
    /// The product.
    Multiply,
    /// The sum.
    Add,
    /// The left one less the right one.
    Subtract,
}
