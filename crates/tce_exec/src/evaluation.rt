// What is evaluated.

use tce_layout::Layout;
use tce_space::Space;
use tce_tree::{Fusion, Leaf, Tree};

/// A tree over a space with a fusion, the slots of its nodes, and the tensor with its indexes into which its value goes.
#[derive(Clone, Copy)]
pub struct Evaluation<'a> {
    pub space: &'a Space,
    pub tree: &'a Tree,
    pub fusion: &'a Fusion,
    pub layout: &'a Layout,
    pub result: &'a Leaf,
}
