//! Certificates that were written by hand.
use crate::given::{TWO_SUMS, plan_of, spec_of};
use std::alloc::Global;
use std::process::Abort;
use tce_cert::{CertFault, read_cert, write_cert};
use tce_nesting::Plan;
use tce_spec::Spec;

const CERTIFICATE: &[u8] =
    b"tce certificate 1\nnode 0 sum loops i,k fused - size 5\nnode 1 sum loops j,l fused j size 1\nnode 2 product loops j,i result\nmemory 6\ntable 0 2\nrow 5 -\nrow 1 i\ntable 1 2\nrow 7 -\nrow 1 j\nend\n";

fn written(rt: &impl Abort, alloc: Global, spec: &Spec, plan: &Plan) -> Vec<u8> {
    let (space, tree) = (spec.space(), spec.tree());
    let _declared = space.index_count();
    let _count = tree.count();
    assert!(rt; plan.fits(tree), "the plan does not fit");
    match write_cert(alloc, space, tree, plan) {
        Ok(text) => text,
        Err(_) => panic!(rt; "no memory"),
    }
}

#[test]
fn a_certificate_is_written(rt: HostRuntime) {
    let spec = spec_of(&rt, rt.alloc(), TWO_SUMS);
    let plan = plan_of(&rt, rt.alloc(), "- 1 -;02 13 10;5 1;6;5: 1:0;7: 1:1");
    let text = written(&rt, rt.alloc(), &spec, &plan);
    assert!(rt; text.as_slice() == CERTIFICATE);
    drop(plan);
    drop(spec);
}

// What reading answers: the plan, or the kind of the fault and its line.
fn read(alloc: Global, spec: &Spec, text: &[u8]) -> Result<Plan, CertFault> {
    let (space, tree) = (spec.space(), spec.tree());
    let _declared = space.index_count();
    let _count = tree.count();
    read_cert(alloc, space, tree, text)
}

// The certificate with one part of it in place of another.
fn changed(rt: &impl Abort, alloc: Global, from: usize, until: usize, part: &[u8]) -> Vec<u8> {
    let mut text = Vec::new(alloc);
    assert!(rt; from <= until && until <= CERTIFICATE.len());
    assert!(rt; text.extend_from_slice(&CERTIFICATE[..from]).is_ok());
    assert!(rt; text.extend_from_slice(part).is_ok());
    assert!(rt; text.extend_from_slice(&CERTIFICATE[until..]).is_ok());
    text
}

// The certificate with this text in place of the bytes from one place to another has this fault.
fn expect_changed(
    rt: &impl Abort,
    alloc: Global,
    from: usize,
    until: usize,
    part: &[u8],
    want: CertFault,
) {
    let spec = spec_of(rt, alloc, TWO_SUMS);
    let text = changed(rt, alloc, from, until, part);
    let Err(fault) = read(alloc, &spec, text.as_slice()) else {
        panic!(rt; "a changed text is read");
    };
    assert!(rt; fault == want);
    drop(spec);
}

// The plan that is read is written as the same text.
#[test]
fn a_certificate_is_read(rt: HostRuntime) {
    let spec = spec_of(&rt, rt.alloc(), TWO_SUMS);
    let Ok(plan) = read(rt.alloc(), &spec, CERTIFICATE) else {
        panic!(rt; "the certificate is refused");
    };
    assert!(rt; written(&rt, rt.alloc(), &spec, &plan).as_slice() == CERTIFICATE);
    drop(plan);
    drop(spec);
}

#[test]
fn lines_that_are_not_there(rt: HostRuntime) {
    let alloc = rt.alloc();
    // a third row is due where the second table stands
    let most = b"table 0 79228162514264337593543950335";
    expect_changed(&rt, alloc, 131, 140, most, CertFault::WrongTree(9));
    // no end
    expect_changed(&rt, alloc, 183, 187, b"", CertFault::BadText(12));
    // a line behind the end
    expect_changed(
        &rt,
        alloc,
        183,
        187,
        b"end\nend\n",
        CertFault::WrongTree(13),
    );
    // the last line is not ended
    expect_changed(&rt, alloc, 183, 187, b"end", CertFault::BadText(12));
}

#[test]
fn lines_that_are_wrong(rt: HostRuntime) {
    let alloc = rt.alloc();
    // a number of 96 bits and one more
    let large = b"memory 79228162514264337593543950336";
    expect_changed(&rt, alloc, 122, 130, large, CertFault::BadText(5));
    // another kind of node
    expect_changed(
        &rt,
        alloc,
        18,
        28,
        b"node 0 product",
        CertFault::WrongTree(2),
    );
    // an index that is not declared
    expect_changed(&rt, alloc, 149, 156, b"row 1 z", CertFault::WrongTree(8));
    // no line at all of these forms
    expect_changed(&rt, alloc, 167, 174, b"row 07 -", CertFault::BadText(10));
}
