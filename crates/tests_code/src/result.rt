// Worked results, and names of files.
ghost use Rattle.tce_job.specs.Examples.{WorkedResults};

use crate::given::spec_of;
use std::process::Abort;
use tce_job::file_of;
use tce_spec::Spec;

// What the definitions give for the worked results.
fn worked_results()
    ensures { WorkedResults }
{}

fn expect_file(rt: &impl Abort, spec: &Spec, t: u8, name: &str) {
    assert!(rt; t < spec.tensor_count());
    assert!(rt; file_of(spec, t).as_str() == name);
}

const TEXT: &[u8] =
    b"range N 2\nindex N i\ntensor A_sixteen_bytes_[N]\ntensor C[]\nC[] = sum{i}(A_sixteen_bytes_[i])\n";

#[test]
fn files_are_named_as_tensors(rt: HostRuntime) {
    worked_results();
    let spec = spec_of(&rt, rt.alloc(), TEXT);
    expect_file(&rt, &spec, 0, "A_sixteen_bytes_.tca");
    expect_file(&rt, &spec, 1, "C.tca");
    drop(spec);
}
