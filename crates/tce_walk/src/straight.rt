// Bodies of operations alone.
ghost use Rattle.std.specs.Prelude.{◌≤◌, length, IfSome, IsTrue};
ghost use Rattle.tce_walk.specs.StraightBodies.{IsOperation, IsStraightTo, IsStraightBody};

use tce_code::Op;

// Where the operations end that stand here, if neither a loop nor a `Clear` is among them.
fn straight_end(ops: &[Op], at: usize) -> Option<usize>
    requires { at ≤ length ops.now }
    ensures { IfSome result (IsStraightTo ops.now at) }
{
    if at >= ops.len() {
        return None;
    }
    match ops[at] {
        Op::Close => Some(at),
        op => {
            if is_operation(op) {
                straight_end(ops, at + 1)
            } else {
                None
            }
        }
    }
}

// Whether it computes a node.
fn is_operation(op: Op) -> bool
    ensures { IsTrue result → IsOperation op }
{
    match op {
        Op::Open(_) | Op::Close | Op::Clear(_) => false,
        Op::Mul(_) | Op::Add(_) | Op::Sub(_) | Op::Acc(_) => true,
    }
}

/// The body that begins here, if it is one of operations alone.
pub(crate) fn straight_body(ops: &[Op], at: usize) -> Option<&[Op]>
    requires { at ≤ length ops.now }
    ensures { IfSome result (λ body. IsStraightBody ops.now at body.now) }
{
    let end = straight_end(ops, at)?;
    if end == at {
        return None;
    }
    Some(&ops[at..end])
}
