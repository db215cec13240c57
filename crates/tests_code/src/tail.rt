//! Bounds on touches.
ghost use Rattle.tce_walk.specs.TailExamples.{WorkedTouches};

use tce_walk::{joined_tails_add_up, single_tails_end_at_last, sum_tails_add_up, touches_are_few};

// What the definitions give for the worked codes.
fn worked_touches()
    ensures { WorkedTouches }
{}

#[test]
fn laws_of_tails() {
    worked_touches();
    sum_tails_add_up();
    single_tails_end_at_last();
    joined_tails_add_up();
    touches_are_few();
}
