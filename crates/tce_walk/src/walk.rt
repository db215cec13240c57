// What is gone through.
use tce_code::Op;
use tce_space::Space;
use tce_tree::{Fusion, Tree};

// The code of a tree with a fusion, over a space.
#[derive(Clone, Copy)]
pub(crate) struct Walk<'a> {
    pub(crate) space: &'a Space,
    pub(crate) tree: &'a Tree,
    pub(crate) fusion: &'a Fusion,
    pub(crate) ops: &'a [Op],
}
