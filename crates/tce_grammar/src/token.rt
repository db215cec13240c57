/// A token of a line.
#[derive(Clone, Copy)]
pub enum Token<'a> {
    /// A name, or one of the words `range`, `tile`, `index`, `tensor` and `sum`.
    Word(&'a [u8]),
    /// One or more decimal digits.
    Number(&'a [u8]),
    /// One of the bytes `[ ] { } ( ) , = * + -`.
    Symbol(u8),
}
