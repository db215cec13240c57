// What a run reports.
use crate::bytes::Bytes;

/// What a run reports.
#[derive(Drop)]
pub struct RunReport {
    /// The words of its intermediates.
    pub memory: u128,
    /// The words that it took for tiles.
    pub tiles: u64,
    /// The length of the result's file, in bytes.
    pub bytes: u64,
    /// The lines of the report.
    pub text: Bytes,
}
