// Texts of certificates, judged.
ghost use Rattle.std.specs.Prelude.{◌≡◌, IfOk, IfErr, OnOk};
ghost use Rattle.tce_nesting.specs.Plan.{PlanFits};
ghost use Rattle.tce_check.specs.Verdict.{IsAccepted};
ghost use Rattle.tce_plan.specs.Certificates.{IsCertificateOf};
ghost use Rattle.tce_plan.specs.Judging.{IsAcceptedText, IsJudgement, IsPlanRefusal, SaysFault, IsOfLeast};

use std::alloc::Global;
use tce_cert::{CertFault, read_cert};
use tce_check::check;
use tce_command::{CertFlaw, CommandRefusal, Refusal};
use tce_nesting::Plan;
use tce_space::Space;
use tce_spec::Spec;

/// The memory of the plan that a text is the certificate of, in elements, where the plan is accepted.
pub fn judge(alloc: Global, spec: &Spec, text: &[u8]) -> Result<u128, CommandRefusal>
    ensures accepted { IfOk result (IsAcceptedText spec.now text.now) }
    ensures refused { IfErr result (IsJudgement spec.now text.now) }
{
    let plan = read_plan(alloc, spec, text)?;
    let judged = judge_plan(spec, &plan);
    drop(plan);
    judged
}

// The plan that a text is the certificate of.
fn read_plan(alloc: Global, spec: &Spec, text: &[u8]) -> Result<Plan, CommandRefusal>
    ensures read { IfOk result (λ plan. IsCertificateOf spec.now plan text.now) }
    ensures refused { IfErr result (IsJudgement spec.now text.now) }
{
    let space = spec.space();
    let tree = spec.tree();
    let _declared = space.index_count();
    let _count = tree.count();
    match read_cert(alloc, space, tree, text) {
        Ok(plan) => Ok(plan),
        Err(fault) => Err(text_refusal(space, fault)),
    }
}

// The refusal of a text with this fault, or want of memory.
fn text_refusal(space: &Space, fault: CertFault) -> CommandRefusal
    ensures { SaysFault space.now fault result }
{
    match CertFlaw::of_text(fault) {
        Some(flaw) => CommandRefusal::certificate(space, flaw),
        None => CommandRefusal::Common(Refusal::Memory),
    }
}

// The memory of a plan, in elements, where the plan is accepted.
fn judge_plan(spec: &Spec, plan: &Plan) -> Result<u128, CommandRefusal>
    requires { PlanFits spec.now.tree plan.now }
    ensures accepted { OnOk result (IsAccepted spec.now.declarations.space spec.now.tree plan.now) }
    ensures least { OnOk result (IsOfLeast spec.now plan.now) }
    ensures memory { IfOk result (λ memory. memory ≡ plan.now.memory) }
    ensures refused { IfErr result (IsPlanRefusal spec.now plan.now) }
{
    let space = spec.space();
    let tree = spec.tree();
    let _declared = space.index_count();
    let verdict = check(space, tree, plan);
    match CertFlaw::of_plan(verdict) {
        Some(flaw) => Err(CommandRefusal::certificate(space, flaw)),
        None => Ok(plan.memory),
    }
}
