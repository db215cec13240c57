// Laws of nestings and of their relations, which hold without any code.
ghost use Rattle.tce_nesting.specs.Laws as law;

/// Nestings that put the same indexes above each other are the same.
pub fn nestings_are_their_relations()
    ensures { law.NestingsAreTheirRelations }
{}

/// A nesting that is cut to indexes of its classes has the cut of its relation.
pub fn restrictions_cut()
    ensures { law.RestrictionsCut }
{}

/// The nesting of all loops tells which sets of them may be fused, and what is then left.
pub fn joins_tell_steps()
    ensures { law.JoinsTellSteps }
{}

/// To be coarser is reflexive and transitive, and holds on fewer indexes all the more.
pub fn coarser_is_preorder()
    ensures { law.CoarserIsPreorder }
{}
