// The commands.
use tce_array::Form;

/// A command as its words say it. Files are named whole, with their suffix.
#[derive(Clone, Copy)]
pub enum Command<'a> {
    /// Runs a specification with at most `budget` words of tiles at once.
    Run {
        spec: &'a str,
        budget: u64,
    },
    /// Runs several formulas in order, each with at most `budget` words of tiles at once.
    Batch {
        spec: &'a str,
        budget: u64,
    },
    /// Runs a specification in pieces, each with at most `budget` words of tiles at once and a fusion of at most `limit`
    /// elements.
    Spill {
        spec: &'a str,
        budget: u64,
        limit: u64,
    },
    /// Reports a fusion of a specification with the least memory.
    Plan {
        spec: &'a str,
    },
    /// Writes a certificate of a plan with the least memory.
    Cert {
        spec: &'a str,
        cert: &'a str,
    },
    /// Checks a certificate, whoever wrote it.
    Check {
        spec: &'a str,
        cert: &'a str,
    },
    /// Makes the array file of a tensor from a flat file.
    Pack {
        spec: &'a str,
        tensor: &'a str,
        flat: &'a str,
    },
    /// Makes a flat file from the array file of a tensor.
    Unpack {
        spec: &'a str,
        tensor: &'a str,
        flat: &'a str,
    },
    /// Copies the array file of a tensor into another form.
    Convert {
        spec: &'a str,
        tensor: &'a str,
        form: Form,
    },
    /// Makes the whole array file of a tensor that is stored once for each pair.
    Expand {
        spec: &'a str,
        tensor: &'a str,
    },
    /// Writes the specification of an einsum text, whose operands are contracted along a path.
    Einsum {
        text: &'a str,
        path: &'a str,
        spec: &'a str,
    },
    /// Makes an example, whose elements come from the number `seed`, and runs it. Its ranges have the extents `v` and `o`.
    Demo {
        seed: u64,
        v: u64,
        o: u64,
    },
}
