//! Laws of the definitions of `plan`. These functions do nothing: their contracts are the laws.

ghost use Rattle.tce_plan.specs.Laws.{PlansHaveOneAnswer};

/// What can be planned is not refused, what is refused has one reason, and all plans of a specification have the same memory.
pub fn plans_have_one_answer()
    ensures { PlansHaveOneAnswer }
{}
