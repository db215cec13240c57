// The rows of a node's operands.
ghost use Rattle.std.specs.Prelude.{◌≡◌, ◌+◌, ◌<◌, [], ◌∷◌, length, All};
ghost use Rattle.tce_space.specs.Limits.{cost_limit};
ghost use Rattle.tce_tree.specs.ContractionTree.{operations};
ghost use Rattle.tce_tree.specs.FlatTree.{IsBefore};
ghost use Rattle.tce_nesting.specs.Plan.{RowsFit};
ghost use Rattle.tce_fusion.specs.Row as states;
ghost use Rattle.tce_fusion.specs.Cover as cover;

use tce_nesting::{Nesting, Row, Tables};
use tce_tree::{Operand, Tree};

// The one state of a tensor or a constant, and of what a sum lacks on the right.
pub(crate) fn leaf_row() -> Row
    ensures { result ≡ states.leaf_row }
{
    Row {
        classes: Nesting::none(),
        cost: 0,
    }
}

// The rows of the left or only operand of a node.
pub(crate) fn left_rows<'a>(tree: &Tree, tables: &'a Tables, v: u8, leaf: &'a [Row]) -> &'a [Row]
    requires node { v < operations tree.now }
    requires lists { length tables.now + 1 ≡ operations tree.now }
    requires rows { RowsFit tree.now tables.now }
    requires leaf { leaf.now ≡ states.leaf_row ∷ [] }
    ensures value { result.now ≡ cover.left_rows tree.now tables.now v }
    ensures limit { All (λ row. row.cost < cost_limit) result.now }
{
    operand_rows(tree, tables, tree.left(v), leaf)
}

// The rows of the right operand of a node, and of a leaf where it is a sum.
pub(crate) fn right_rows<'a>(tree: &Tree, tables: &'a Tables, v: u8, leaf: &'a [Row]) -> &'a [Row]
    requires node { v < operations tree.now }
    requires lists { length tables.now + 1 ≡ operations tree.now }
    requires rows { RowsFit tree.now tables.now }
    requires leaf { leaf.now ≡ states.leaf_row ∷ [] }
    ensures value { result.now ≡ cover.right_rows tree.now tables.now v }
    ensures limit { All (λ row. row.cost < cost_limit) result.now }
{
    match tree.right(v) {
        Some(operand) => operand_rows(tree, tables, operand, leaf),
        None => leaf,
    }
}

fn operand_rows<'a>(
    tree: &Tree,
    tables: &'a Tables,
    operand: &Operand,
    leaf: &'a [Row],
) -> &'a [Row]
    requires inside { IsBefore (length tables.now) operand.now }
    requires rows { RowsFit tree.now tables.now }
    requires leaf { leaf.now ≡ states.leaf_row ∷ [] }
    ensures value { result.now ≡ cover.operand_rows tables.now operand.now }
    ensures limit { All (λ row. row.cost < cost_limit) result.now }
{
    match operand {
        Operand::Node(u) => tables.rows(*u),
        Operand::Leaf(_) => leaf,
        Operand::Constant(_) => leaf,
    }
}
