// The machine over words, tiles and a disk.
ghost use Rattle.std.specs.Prelude.{◌≡◌, false};
ghost use Rattle.tce_exec.specs.Workspace.{state_in};
ghost use Rattle.tce_exec.specs.Prepared.{IsPrepared};
ghost use Rattle.tce_exec.specs.Storages.{work_of, setting_of};
ghost use Rattle.tce_exec.specs.Evaluations.{places_of};
ghost use Rattle.tce_exec.specs.Keeping.{IsLater};
ghost use Rattle.tce_exec.specs.Plans.{AreKept};

use crate::body::run_body;
use crate::evaluation::Evaluation;
use crate::operation::operate;
use crate::plan::Kept;
use crate::puts::clear_slot;
use crate::storage::Storage;
use crate::tail::run_tail;
use crate::terms::run_terms;
use tce_block::Block;
use tce_outside::{Disk, Failed};
use tce_space::Numbers;
use tce_walk::{Body, Combination, Machine, Tail};

/// Runs loop code of an evaluation over a storage.
pub(crate) struct Runner<'a, D: Disk> {
    pub(crate) evaluation: Evaluation<'a>,
    pub(crate) store: Storage<'a, D>,
    pub(crate) kept: Kept,
    // Whether a call has failed. Nothing is known of the tiles then.
    pub(crate) failed: bool,
}

impl<'a, D: Disk> Machine for Runner<'a, D> {
    ghost space = { λ m. m.evaluation.space.now };

    ghost setting = { λ m. setting_of D.files m.evaluation m.store };

    ghost state = { λ m. state_in (work_of D.files m.evaluation m.store) };

    ghost touches = { λ m. m.store.cache.now.touches };

    ghost faults = { λ m. D.faults m.store.disk.now };

    ghost ready = { λ m. IsPrepared (work_of D.files m.evaluation m.store) × (m.failed ≡ false) × AreKept (places_of m.evaluation) m.kept };

    ghost keeps = { λ x y. (y.evaluation ≡ x.evaluation) × (y.store.words.ghost_name ≡ x.store.words.ghost_name)
        × (y.store.cache.ghost_name ≡ x.store.cache.ghost_name) × (y.store.disk.ghost_name ≡ x.store.disk.ghost_name)
        × IsLater (work_of D.files x.evaluation x.store) (work_of D.files y.evaluation y.store) x.failed y.failed };

    fn frames(&self) -> usize {
        self.store.cache.frames()
    }

    fn clear(&mut self, v: u8) {
        let store = &mut self.store;
        clear_slot(&self.evaluation, store.words, v);
    }

    fn operate(&mut self, v: u8, numbers: &Numbers) -> Result<(), Failed> {
        let answer = operate(&self.evaluation, &mut self.store, v, numbers);
        self.failed = answer.is_err();
        answer
    }

    fn run_tail(&mut self, tail: &Tail, numbers: &Numbers) -> Result<(), Failed> {
        let answer = run_tail(
            &self.evaluation,
            &mut self.store,
            tail,
            numbers,
            &mut self.kept,
        );
        self.failed = answer.is_err();
        answer
    }

    fn run_body(
        &mut self,
        body: &Body<'_>,
        block: &Block,
        numbers: &Numbers,
    ) -> Result<(), Failed> {
        let answer = run_body(
            &self.evaluation,
            &mut self.store,
            body,
            block,
            numbers,
            &mut self.kept.position,
        );
        self.failed = answer.is_err();
        answer
    }

    fn run_terms(
        &mut self,
        sum: &Combination<'_>,
        block: &Block,
        numbers: &Numbers,
    ) -> Result<(), Failed> {
        let answer = run_terms(
            &self.evaluation,
            &mut self.store,
            sum,
            block,
            numbers,
            &mut self.kept.position,
        );
        self.failed = answer.is_err();
        answer
    }

    ghost use Rattle.std.proofs.Common.{refl, ◌∙◌};
    ghost use Rattle.tce_exec.specs.Following.{later_own, later_on};

    ghost keeps_own = { λ x. (refl, refl, refl, refl, later_own (work_of D.files x.evaluation x.store) x.failed) };

    ghost keeps_on = { λ x y z h k. (
      k.0 ∙ h.0,
      k.1 ∙ h.1,
      k.2 ∙ h.2,
      k.3 ∙ h.3,
      later_on (work_of D.files x.evaluation x.store) (work_of D.files y.evaluation y.store) (work_of D.files z.evaluation z.store)
          x.failed y.failed z.failed h.4 k.4,
    ) };
}
