// The windows of a term's operands and of the places to which its words are added.
ghost use Rattle.std.specs.Prelude.{◌≡◌, ◌+◌, ◌≤◌, ◌^◌, false, OnOk, IsErr, IsTrue};
ghost use Rattle.tce_walk.specs.Terms.{IsTermOperand};
ghost use Rattle.tce_exec.specs.Prepared.{IsPrepared};
ghost use Rattle.tce_exec.specs.Operands.{IsPlaceOf};
ghost use Rattle.tce_exec.specs.Storages.{work_of, Reads, Upholds};
ghost use Rattle.tce_exec.specs.Evaluations.{places_of};
ghost use Rattle.tce_exec.specs.Positions.{IsPosition, numbers_of};
ghost use Rattle.tce_exec.specs.TermWindows.{AreOperandsOf, HaveElements, AreTermSteps, AreTermWindows, CanStepTerm};

use crate::evaluation::Evaluation;
use crate::operand_windows::{operand_window, place_window};
use crate::position::Position;
use crate::steps::{Windows, set_operand_steps, set_place_steps};
use crate::storage::Storage;
use tce_cache::Cache;
use tce_outside::{Disk, Failed};
use tce_tree::Operand;
use tce_walk::TermOperand;

/// The operands of a term, and the node to whose places its words are added. A term that is no product of two has its operand
/// on the left.
#[derive(Clone, Copy)]
pub(crate) struct TermOperands<'a> {
    pub pair: bool,
    pub left: &'a Operand,
    pub right: &'a Operand,
    pub out: u8,
}

/// Finds the operands of a term of node `out`.
pub(crate) fn term_operands<'a>(
    evaluation: &Evaluation<'a>,
    operand: TermOperand,
    out: u8,
) -> TermOperands<'a>
    requires { IsTermOperand evaluation.now.tree.now operand }
    ensures operands { AreOperandsOf evaluation.now.tree.now operand result }
    ensures out { result.out ≡ out }
{
    match operand {
        TermOperand::Product(v) => {
            let left = evaluation.tree.left(v);
            let Some(right) = evaluation.tree.right(v) else {
                unreachable!();
            };
            TermOperands {
                pair: true,
                left,
                right,
                out,
            }
        }
        TermOperand::Left(v) => {
            let operand = evaluation.tree.left(v);
            TermOperands {
                pair: false,
                left: operand,
                right: operand,
                out,
            }
        }
        TermOperand::Right(v) => {
            let Some(operand) = evaluation.tree.right(v) else {
                unreachable!();
            };
            TermOperands {
                pair: false,
                left: operand,
                right: operand,
                out,
            }
        }
    }
}

/// Gives the windows the steps of a term's operands and places. Where they begin, each block says.
pub(crate) fn set_term_steps(
    evaluation: &Evaluation,
    cache: &Cache,
    operands: &TermOperands,
    windows: &mut Windows,
)
    requires { CanStepTerm (places_of evaluation.now)
        evaluation.now.result.now.tensor cache.now operands.now }
    ensures { AreTermSteps (places_of evaluation.now) operands.now windows.new }
{
    set_operand_steps(evaluation, cache, operands.left, &mut windows.left);
    set_operand_steps(evaluation, cache, operands.right, &mut windows.right);
    set_place_steps(evaluation, cache, operands.out, &mut windows.out);
}

// Finds the windows of one operand and of the places.
fn single_windows<D: Disk>(
    evaluation: &Evaluation,
    store: &mut Storage<'_, D>,
    operands: &TermOperands,
    first: &Position,
    windows: &mut Windows,
) -> Result<(), Failed>
    requires prepared { IsPrepared (work_of D.files evaluation.now store.old) }
    requires position { IsPosition evaluation.now.space.now first.now }
    requires single { operands.now.pair ≡ false }
    requires elements { HaveElements (places_of evaluation.now) operands.now (numbers_of first.now) }
    requires place { IsPlaceOf (work_of D.files evaluation.now store.old)
        operands.now.out (numbers_of first.now) }
    requires steps { AreTermSteps (places_of evaluation.now) operands.now windows.old }
    requires few { store.old.cache.now.touches + 3 ≤ 2 ^ 100 }
    ensures steps { OnOk result (AreTermSteps (places_of evaluation.now) operands.now windows.new) }
    ensures windows { OnOk result (AreTermWindows (work_of D.files evaluation.now store.new)
        operands.now (numbers_of first.now) windows.new) }
    ensures read { OnOk result (Reads 3 D.files evaluation.now store.old store.new) }
    ensures upheld { Upholds D.files D.faults evaluation.now store.old store.new (IsErr result) }
{
    operand_window(evaluation, store, operands.left, first, &mut windows.left)?;
    place_window(evaluation, store, operands.out, first, &mut windows.out)
}

// Finds the windows of two operands and of the places.
fn both_windows<D: Disk>(
    evaluation: &Evaluation,
    store: &mut Storage<'_, D>,
    operands: &TermOperands,
    first: &Position,
    windows: &mut Windows,
) -> Result<(), Failed>
    requires prepared { IsPrepared (work_of D.files evaluation.now store.old) }
    requires position { IsPosition evaluation.now.space.now first.now }
    requires pair { IsTrue operands.now.pair }
    requires elements { HaveElements (places_of evaluation.now) operands.now (numbers_of first.now) }
    requires place { IsPlaceOf (work_of D.files evaluation.now store.old)
        operands.now.out (numbers_of first.now) }
    requires steps { AreTermSteps (places_of evaluation.now) operands.now windows.old }
    requires few { store.old.cache.now.touches + 3 ≤ 2 ^ 100 }
    ensures steps { OnOk result (AreTermSteps (places_of evaluation.now) operands.now windows.new) }
    ensures windows { OnOk result (AreTermWindows (work_of D.files evaluation.now store.new)
        operands.now (numbers_of first.now) windows.new) }
    ensures read { OnOk result (Reads 3 D.files evaluation.now store.old store.new) }
    ensures upheld { Upholds D.files D.faults evaluation.now store.old store.new (IsErr result) }
{
    operand_window(evaluation, store, operands.left, first, &mut windows.left)?;
    operand_window(evaluation, store, operands.right, first, &mut windows.right)?;
    place_window(evaluation, store, operands.out, first, &mut windows.out)
}

/// Finds the windows of a term's operands and places, where the block begins at these numbers.
pub(crate) fn term_windows<D: Disk>(
    evaluation: &Evaluation,
    store: &mut Storage<'_, D>,
    operands: &TermOperands,
    first: &Position,
    windows: &mut Windows,
) -> Result<(), Failed>
    requires prepared { IsPrepared (work_of D.files evaluation.now store.old) }
    requires position { IsPosition evaluation.now.space.now first.now }
    requires elements { HaveElements (places_of evaluation.now) operands.now (numbers_of first.now) }
    requires place { IsPlaceOf (work_of D.files evaluation.now store.old)
        operands.now.out (numbers_of first.now) }
    requires steps { AreTermSteps (places_of evaluation.now) operands.now windows.old }
    requires few { store.old.cache.now.touches + 3 ≤ 2 ^ 100 }
    ensures steps { OnOk result (AreTermSteps (places_of evaluation.now) operands.now windows.new) }
    ensures windows { OnOk result (AreTermWindows (work_of D.files evaluation.now store.new)
        operands.now (numbers_of first.now) windows.new) }
    ensures read { OnOk result (Reads 3 D.files evaluation.now store.old store.new) }
    ensures upheld { Upholds D.files D.faults evaluation.now store.old store.new (IsErr result) }
{
    if operands.pair {
        both_windows(evaluation, store, operands, first, windows)
    } else {
        single_windows(evaluation, store, operands, first, windows)
    }
}
