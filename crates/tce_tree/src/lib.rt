//! Contraction trees: expressions of products, additions, subtractions and sums over tensors and constants, their nodes in postorder, their values, fusions and loop orders.
#![tactic(auto)]

mod building;
mod expr;
mod fault;
mod fusion;
mod laws;
mod node;
mod tree;

pub use expr::{Expr, Leaf};
pub use fault::TreeFault;
pub use fusion::{Fusion, Orders, is_order_of};
pub use laws::{parents_have_operands, value_depends_on_dims, value_is_word};
pub use node::{Kind, Operand};
pub use tree::Tree;
