//! The states of `(sum{k}(A[i,k])) * (sum{l}(B[j,l]))`, and small relations.
ghost use Rattle.tce_fusion.specs.StateExamples.{WorkedStates, WorkedRelations, WorkedCovers};

// What the definitions give for the worked states.
fn worked_states()
    ensures { WorkedStates }
{}

// What they give for small relations.
fn worked_relations()
    ensures { WorkedRelations }
{}

// And for tables of the two sums.
fn worked_covers()
    ensures { WorkedCovers }
{}

#[test]
fn states_are_the_worked_ones() {
    worked_states();
    worked_relations();
    worked_covers();
}
