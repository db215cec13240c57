//! Lines of refusals that were written by hand.
ghost use Rattle.tce_command.specs.Report.{NamesDeclared, trouble_of};

use crate::top::given::{check, must};
use std::alloc::Global;
use std::process::Abort;
use std::test::Fail;
use tce_command::{ArrayTrouble, CertFlaw, CommandRefusal, Refusal, finish, refuse, refuse_words};
use tce_nesting::Nesting;
use tce_outside::MemSink;
use tce_space::{IndexSet, Name, Space};
use tce_spec::{Limit, SpecFault};
use tce_tree::TreeFault;

fn name(rt: &impl Abort, text: &str) -> Name {
    must(rt, Name::from(text))
}

// What a refusal puts on the sink.
fn check_line(rt: &impl Abort, alloc: Global, refusal: CommandRefusal, code: u8, line: &str) {
    let mut out = MemSink::new(alloc);
    let status = refuse(refusal, &mut out);
    check(rt, status.code() == code, line);
    check(rt, out.bytes() == line.as_bytes(), line);
}

// What a refusal of any command but the check of a certificate puts on the sink.
fn expect(rt: &impl Abort, alloc: Global, refusal: Refusal, code: u8, line: &str) {
    check_line(rt, alloc, CommandRefusal::from(refusal), code, line);
}

// The line of a specification's fault.
fn expect_fault(rt: &impl Abort, alloc: Global, fault: SpecFault, line: &str) {
    expect(rt, alloc, Refusal::Specification(fault), 2, line);
}

#[test]
fn faults_of_specifications_have_their_lines(rt: HostRuntime) {
    let alloc = rt.alloc();
    expect_fault(&rt, alloc, SpecFault::TooLong, "error 2: too long\n");
    let text = SpecFault::BadText(1);
    expect_fault(&rt, alloc, text, "error 2: line 1: bad text\n");
    let twice = SpecFault::NameTwice(3, name(&rt, "A"));
    expect_fault(&rt, alloc, twice, "error 2: line 3: A declared twice\n");
    let node = SpecFault::Tree(6, TreeFault::TooManyLoops(31));
    let line = "error 2: line 6: node 31 has more than 10 loops\n";
    expect_fault(&rt, alloc, node, line);
    let rank = SpecFault::LimitPassed(4, Limit::TileWords);
    let line = "error 2: line 4: limit of tile words passed\n";
    expect_fault(&rt, alloc, rank, line);
}

#[test]
fn refused_files_have_their_lines(rt: HostRuntime) {
    let alloc = rt.alloc();
    let missing = Refusal::missing("one.tce");
    expect(&rt, alloc, missing, 3, "error 3: no file one.tce\n");
    let length = Refusal::Array(name(&rt, "A"), ArrayTrouble::BadLength(48));
    expect(&rt, alloc, length, 4, "error 4: A.tca: length 48\n");
    let head = Refusal::Array(name(&rt, "A"), ArrayTrouble::BadHeader(8));
    expect(&rt, alloc, head, 4, "error 4: A.tca: head byte 8\n");
    let flat = Refusal::Flat(24);
    expect(&rt, alloc, flat, 11, "error 11: flat length 24\n");
    let tensor = Refusal::Tensor(name(&rt, "A"));
    expect(&rt, alloc, tensor, 12, "error 12: no tensor A\n");
    let misfit = Refusal::Misfit(0);
    let line = "error 13: element 0 does not fit\n";
    expect(&rt, alloc, misfit, 13, line);
}

#[test]
fn refused_runs_have_their_lines(rt: HostRuntime) {
    let alloc = rt.alloc();
    let budget = Refusal::Budget(12);
    expect(&rt, alloc, budget, 5, "error 5: budget needs 12\n");
    let most = Refusal::Intermediates(340282366920938463463374607431768211455);
    let line = "error 6: intermediates 340282366920938463463374607431768211455\n";
    expect(&rt, alloc, most, 6, line);
    expect(&rt, alloc, Refusal::Disk, 8, "error 8: disk fault\n");
    let memory = Refusal::Memory;
    expect(&rt, alloc, memory, 10, "error 10: want of memory\n");
}

#[test]
fn words_of_no_command_have_their_line(rt: HostRuntime) {
    let mut out = MemSink::new(rt.alloc());
    let line = b"error 1: bad words\n";
    check(&rt, refuse_words(&mut out).code() == 1, "bad words");
    check(&rt, out.bytes() == line.as_slice(), "the line");
}

// A space of the indexes i and j.
fn two_indexes(rt: &impl Abort, alloc: Global) -> Result<Space, Fail> {
    let mut space = Space::new(alloc)?;
    for text in ["i", "j"] {
        let index = name(rt, text);
        assert!(rt; tce_space::is_name(index.as_str().as_bytes()));
        let range = space.add_range(&index, 2, 1)?;
        space.add_index(&index, range)?;
    }
    Ok(space)
}

// What the flaw of a certificate puts on the sink.
fn expect_flaw(rt: &impl Abort, alloc: Global, space: &Space, flaw: CertFlaw, line: &str)
    requires { NamesDeclared space.now (trouble_of flaw) }
{
    let refusal = CommandRefusal::certificate(space, flaw);
    check_line(rt, alloc, refusal, 7, line);
}

#[test]
fn certificates_are_refused_with_their_line(rt: HostRuntime) {
    let alloc = rt.alloc();
    let space = must(&rt, two_indexes(&rt, alloc));
    assert!(rt; space.index_count() == 2);
    let text = CertFlaw::WrongTree(9);
    let line = "error 7: line 9: does not fit the tree\n";
    expect_flaw(&rt, alloc, &space, text, line);
    let order = CertFlaw::OrderWrong(1);
    expect_flaw(&rt, alloc, &space, order, "error 7: node 1: loop order\n");
}

#[test]
fn steps_that_are_not_covered_have_their_line(rt: HostRuntime) {
    let alloc = rt.alloc();
    let space = must(&rt, two_indexes(&rt, alloc));
    assert!(rt; space.index_count() == 2);
    let i = IndexSet::empty().with(0);
    let j = IndexSet::empty().with(1);
    let classes = Nesting::none().with_class(j).with_class(i);
    let step = CertFlaw::NotCovered(3, i.union(j), classes, 12);
    let line = "error 7: node 3: fused i,j classes j/i cost 12 not covered\n";
    expect_flaw(&rt, alloc, &space, step, line);
}

#[test]
fn reports_are_put_whole(rt: HostRuntime) {
    let mut out = MemSink::new(rt.alloc());
    let report = b"tce pack 1\nwrote A.tca 80\n";
    let status = finish(report, &mut out);
    check(&rt, status.code() == 0, "done");
    check(&rt, out.bytes() == report.as_slice(), "the report");
}
