// Where the words of a run stand.

use tce_cache::Cache;
use tce_words::Words;

/// The words of a run, the cache of tiles among them, and the disk with the files of the tensors.
pub struct Storage<'a, D> {
    pub words: &'a mut Words,
    pub cache: &'a mut Cache,
    pub disk: &'a mut D,
}
