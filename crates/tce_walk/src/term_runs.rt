// Runs the terms of a band's node block by block.
ghost use Rattle.std.specs.Prelude.{◌≡◌, ◌+◌, ◌*◌, ◌≤◌, ◌^◌, OnOk, IsErr};
ghost use Rattle.tce_walk.specs.BandSearch.{band_program};
ghost use Rattle.tce_walk.specs.FoundTerms.{AreTermsOf};
ghost use Rattle.tce_walk.specs.Machine.{assignment_of, Upholds};
ghost use Rattle.tce_walk.specs.Run.{AreKept, IsPart, RunsOver};
ghost use Rattle.tce_walk.specs.TermRuns.{IsTermsRun};
ghost use Rattle.tce_walk.specs.Terms.{touches_of_terms};
ghost use Rattle.tce_walk.specs.Touches.{block_count};

use crate::band_search::Band;
use crate::combination::Terms;
use crate::cuts::cuts_of;
use crate::grouping::{group_sizes, readings_of_terms};
use crate::machine::Machine;
use crate::terms::Combination;
use crate::walk::Walk;
use tce_block::{Block, GroupedBlocks};
use tce_outside::Failed;
use tce_space::Numbers;

// Sets the places of a band's node to what the terms add up to, block by block.
pub(crate) fn run_terms_of_band<M: Machine>(
    walk: &Walk,
    machine: &mut M,
    band: &Band,
    terms: &Terms,
    numbers: &Numbers,
) -> Result<(), Failed>
    requires terms { AreTermsOf walk.now.space.now walk.now.tree.now walk.now.fusion.now.0.items walk.now.ops.now band.now terms.now }
    requires limits { AreKept walk.now.space.now walk.now.tree.now }
    requires fused { (M.setting machine.old).fusion ≡ walk.now.fusion.now.0.items }
    requires over { RunsOver walk.now.space.now walk.now.tree.now (M.space machine.old) (M.setting machine.old) }
    requires part { IsPart walk.now.space.now walk.now.tree.now
        (band_program walk.now.ops.now band.now) (assignment_of numbers.now) }
    requires ready { M.ready machine.old }
    requires few { M.touches machine.old + block_count walk.now.space.now band.now.loops.0.items
        * touches_of_terms walk.now.space.now terms.now.terms.items ≤ 2 ^ 100 }
    ensures ready { OnOk result (M.ready machine.new) }
    ensures run { OnOk result (IsTermsRun walk.now.space.now (M.setting machine.old)
        band.now.carrier band.now.loops.0.items terms.now.terms.items (assignment_of numbers.now)
        (M.state machine.old) (M.state machine.new) (M.touches machine.old) (M.touches machine.new)) }
    ensures upheld { Upholds M.space M.setting M.keeps M.faults machine.old machine.new (IsErr result) }
{
    let sum = Combination {
        node: band.carrier,
        loops: band.loops.0.as_slice(),
        terms: terms.terms.as_slice(),
        scale: terms.scale,
    };
    let cuts = cuts_of(walk.space, band.loops.0.as_slice());
    let readings = readings_of_terms(walk.tree, terms.terms.as_slice());
    let sizes = group_sizes(
        walk.space,
        cuts.as_slice(),
        readings.as_slice(),
        machine.frames(),
    );
    let mut parts = GroupedBlocks::new(&cuts, &sizes);
    let mut block = Block::default();
    while parts.next_in(&mut block) {
        machine.run_terms(&sum, &block, numbers)?;
    }
    Ok(())
}
