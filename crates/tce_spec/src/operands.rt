//! The tensors of a formula.

ghost use Rattle.std.specs.Prelude.{◌≡◌, ◌<◌, eqb, nat_lt, IsTrue};
ghost use Rattle.std.specs.List.{fold, list_any, list_all};
ghost use Rattle.tce_tree.specs.Expr.{tree_of};
ghost use Rattle.tce_spec.specs.Operands.{references, with_new, AreSeen};

use arrayvec::ArrayVec;
use tce_tree::Expr;

/// Puts the tensors of an expression behind those that are there, from the left, each that is not there yet.
pub(crate) fn add_operands<const N: usize>(seen: &mut ArrayVec<u8, N>, expr: &Expr)
    requires below { IsTrue (list_all (λ t. nat_lt t N) (references (tree_of expr.now))) }
    requires seen { AreSeen N seen.old.items }
    ensures added { seen.new.items ≡ fold with_new seen.old.items (references (tree_of expr.now)) }
    ensures seen { AreSeen N seen.new.items }
{
    match expr {
        Expr::Leaf(leaf) => add(seen, leaf.tensor),
        Expr::Constant(_) => {}
        Expr::Product(left, right) | Expr::Add(left, right) | Expr::Sub(left, right) => {
            add_operands(seen, left);
            add_operands(seen, right);
        }
        Expr::Sum(_, operand) => add_operands(seen, operand),
    }
}

/// Puts a number behind the others, unless it is one of them.
fn add<const N: usize>(seen: &mut ArrayVec<u8, N>, t: u8)
    requires below { t < N }
    requires seen { AreSeen N seen.old.items }
    ensures added { seen.new.items ≡ with_new seen.old.items t }
    ensures seen { AreSeen N seen.new.items }
{
    if !is_among(seen.as_slice(), t) {
        seen.push(t);
    }
}

fn is_among(numbers: &[u8], t: u8) -> bool
    ensures { result ≡ list_any (eqb t) numbers.now }
{
    numbers.iter().any(|other| t == *other)
}
