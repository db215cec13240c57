//! Reports that were written by hand.
//!
//! A plan is a text: its fused sets, its orders, its sizes and its memory. Indexes are digits.
use crate::given::{TWO_SUMS, order, plan_of, set, spec_of};
use std::alloc::Global;
use std::process::Abort;
use tce_report::{LineFault, NodeLine, node_line, plan_text, read_node_line, run_text};
use tce_space::FileName;
use tce_spec::Spec;

// Ranges of extent 2.
const THREE_SUMS: &str =
    "range N 2\nindex N a b c d e f i j k l\ntensor A[N,N,N,N]\ntensor B[N,N,N,N]\ntensor C[N,N,N,N]\ntensor D[N,N,N,N]\ntensor S[N,N,N,N]\nS[a,b,i,j] = sum{c,k}(sum{d,f}(sum{e,l}(B[b,e,f,l] * D[c,d,e,l]) * C[d,f,j,k]) * A[a,c,i,k])\n";

const AFFINE: &str =
    "range N 2\nindex N i\ntensor A[N]\ntensor B[N]\ntensor C[N]\nC[i] = 2 * A[i] - B[i] + 1\n";

// One node without loops.
const NUMBERS: &str = "range N 2\nindex N i\ntensor A[]\ntensor B[]\ntensor C[]\nC[] = A[] * B[]\n";

const OUTER: &str =
    "range N 2\nindex N i j\ntensor A[N]\ntensor B[N]\ntensor C[N,N]\nC[i,j] = A[i] * B[j]\n";

const OUTER_SUM: &str =
    "range N 2\nindex N i j\ntensor A[N]\ntensor B[N]\ntensor S[]\nS[] = sum{i,j}(A[i] * B[j])\n";

// A sum over ten indexes of the product of two tensors of five dimensions each.
const TEN_LOOPS: &str =
    "range N 2\nindex N index_number_a_1 index_number_b_2 index_number_c_3 index_number_d_4 index_number_e_5\nindex N index_number_f_6 index_number_g_7 index_number_h_8 index_number_i_9 index_number_j_0\ntensor A[N,N,N,N,N]\ntensor B[N,N,N,N,N]\ntensor C[]\nC[] = sum{index_number_a_1,index_number_b_2,index_number_c_3,index_number_d_4,index_number_e_5,index_number_f_6,index_number_g_7,index_number_h_8,index_number_i_9,index_number_j_0}(A[index_number_a_1,index_number_b_2,index_number_c_3,index_number_d_4,index_number_e_5] * B[index_number_f_6,index_number_g_7,index_number_h_8,index_number_i_9,index_number_j_0])\n";

// The plan of the text for the specification has this report.
fn check_plan(rt: &impl Abort, alloc: Global, text: &str, stated: &str, wanted: &str) {
    let spec = spec_of(rt, alloc, text);
    let (space, tree) = (spec.space(), spec.tree());
    let _declared = space.index_count();
    let plan = plan_of(rt, alloc, stated);
    assert!(rt; plan.fits(tree), "the plan does not fit");
    match plan_text(alloc, space, tree, &plan) {
        Ok(text) => assert!(rt; text.as_slice() == wanted.as_bytes(), "{stated}"),
        Err(_) => panic!(rt; "no memory"),
    }
    drop(plan);
    drop(spec);
}

#[test]
fn an_order_against_declaration_is_reported(rt: HostRuntime) {
    let wanted =
        "tce plan 1\nnode 0 sum loops i,k fused - size 5\nnode 1 sum loops j,l fused j size 1\nnode 2 product loops j,i result\nmemory 6\n";
    check_plan(&rt, rt.alloc(), TWO_SUMS, "- 1 -;02 13 10;5 1;6", wanted);
}

#[test]
fn fused_sets_are_reported_in_order_of_declaration(rt: HostRuntime) {
    let wanted =
        "tce plan 1\nnode 0 product loops b,c,d,f,e,l fused b,c,d,e,f,l size 1\nnode 1 sum loops b,c,d,f,e,l fused b,c,d,f size 1\nnode 2 product loops b,c,d,f,j,k fused b,c,d,f,j,k size 1\nnode 3 sum loops b,c,d,f,j,k fused b,c size 10000\nnode 4 product loops b,c,a,i,j,k fused a,b,c,i,j,k size 1\nnode 5 sum loops b,c,a,i,j,k result\nmemory 10004\n";
    let stated =
        "954321 1235 123578 12 012678 -;123549 123549 123578 123578 120678 120678;1 1 1 10000 1;10004";
    check_plan(&rt, rt.alloc(), THREE_SUMS, stated, wanted);
}

#[test]
fn additions_and_subtractions_are_reported(rt: HostRuntime) {
    let wanted =
        "tce plan 1\nnode 0 product loops i fused i size 1\nnode 1 sub loops i fused - size 2\nnode 2 add loops i result\nmemory 3\n";
    check_plan(&rt, rt.alloc(), AFFINE, "0 - -;0 0 0;1 2;3", wanted);
}

#[test]
fn one_node_without_loops_is_reported(rt: HostRuntime) {
    let wanted = "tce plan 1\nnode 0 product loops - result\nmemory 0\n";
    check_plan(&rt, rt.alloc(), NUMBERS, "-;-;;0", wanted);
}

// A run's plan by its text, its tiles, and the file that it wrote with its bytes.
#[derive(Clone, Copy)]
struct Stated<'a> {
    plan: &'a str,
    tiles: u64,
    file: &'a str,
    bytes: u64,
}

fn file_of(rt: &impl Abort, name: &str) -> FileName {
    match FileName::from(name) {
        Ok(file) => file,
        Err(_) => panic!(rt; "too long: {name}"),
    }
}

// The run of the specification by this plan has this report.
fn check_run(rt: &impl Abort, alloc: Global, text: &str, stated: Stated, wanted: &str) {
    let spec = spec_of(rt, alloc, text);
    let (space, tree) = (spec.space(), spec.tree());
    let _declared = space.index_count();
    let plan = plan_of(rt, alloc, stated.plan);
    let file = file_of(rt, stated.file);
    assert!(rt; plan.fits(tree), "the plan does not fit");
    match run_text(alloc, space, tree, &plan, stated.tiles, &file, stated.bytes) {
        Ok(text) => assert!(rt; text.as_slice() == wanted.as_bytes()),
        Err(_) => panic!(rt; "no memory"),
    }
    drop(plan);
    drop(spec);
}

#[test]
fn a_run_of_one_node_is_reported(rt: HostRuntime) {
    let wanted = "tce run 1\nnode 0 product loops i,j result\nmemory 0\ntiles 3\nwrote C.tca 80\n";
    let stated = Stated {
        plan: "-;01;;0",
        tiles: 3,
        file: "C.tca",
        bytes: 80,
    };
    check_run(&rt, rt.alloc(), OUTER, stated, wanted);
}

#[test]
fn a_run_of_a_fused_product_is_reported(rt: HostRuntime) {
    let wanted =
        "tce run 1\nnode 0 product loops i,j fused i,j size 1\nnode 1 sum loops i,j result\nmemory 1\ntiles 12288\nwrote S.tca 24\n";
    let stated = Stated {
        plan: "01 -;01 01;1;1",
        tiles: 12288,
        file: "S.tca",
        bytes: 24,
    };
    check_run(&rt, rt.alloc(), OUTER_SUM, stated, wanted);
}

#[test]
fn the_longest_line_has_room(rt: HostRuntime) {
    let spec = spec_of(&rt, rt.alloc(), TEN_LOOPS);
    let stated =
        "0123456789 -;9876543210 0123456789;79228162514264337593543950335;79228162514264337593543950335";
    let wanted =
        "node 0 product loops index_number_j_0,index_number_i_9,index_number_h_8,index_number_g_7,index_number_f_6,index_number_e_5,index_number_d_4,index_number_c_3,index_number_b_2,index_number_a_1 fused index_number_a_1,index_number_b_2,index_number_c_3,index_number_d_4,index_number_e_5,index_number_f_6,index_number_g_7,index_number_h_8,index_number_i_9,index_number_j_0 size 79228162514264337593543950335";
    expect_line(&rt, rt.alloc(), &spec, stated, wanted);
    drop(spec);
}

// The line of the first node by this plan.
fn expect_line(rt: &impl Abort, alloc: Global, spec: &Spec, stated: &str, wanted: &str) {
    let (space, tree) = (spec.space(), spec.tree());
    let _declared = space.index_count();
    let plan = plan_of(rt, alloc, stated);
    assert!(rt; plan.fits(tree), "the plan does not fit");
    assert!(rt; 0 < tree.count());
    assert!(rt; node_line(space, tree, &plan, 0).as_str() == wanted);
    drop(plan);
}

fn read_line(spec: &Spec, v: u8, line: &str) -> Result<NodeLine, LineFault> {
    let (space, tree) = (spec.space(), spec.tree());
    let _declared = space.index_count();
    if v >= tree.count() {
        return Err(LineFault::WrongTree);
    }
    read_node_line(space, tree, v, line.as_bytes())
}

// The line of the node says these loops, these fused indexes and this size.
fn check_read(rt: &impl Abort, spec: &Spec, v: u8, line: &str, wanted: (&str, &str, u128)) {
    let (loops, fused, size) = wanted;
    match read_line(spec, v, line) {
        Ok(said) => {
            assert!(rt;
                said.order.0.as_slice() == order(rt, loops).0.as_slice(),
                "{line}"
            );
            assert!(rt; said.fused.bits() == set(fused).bits(), "{line}");
            assert!(rt; said.size == size, "{line}");
        }
        Err(_) => panic!(rt; "refused: {line}"),
    }
}

fn fault_number(answer: &Result<NodeLine, LineFault>) -> u8 {
    match answer {
        Ok(_) => 0,
        Err(LineFault::BadText) => 1,
        Err(LineFault::WrongTree) => 2,
    }
}

// Each of the lines, one below the other, has the fault of this number.
fn check_fault(rt: &impl Abort, spec: &Spec, v: u8, lines: &str, number: u8) {
    for line in lines.split('\n') {
        let fault = fault_number(&read_line(spec, v, line));
        assert!(rt; fault == number, "{line}");
    }
}

// No line, and eleven that have no form.
const BAD_TEXT: &str =
    "\nnode 0 sum loops i,k\nnode 0 sum loops i,k fused - size 5 \nnode  0 sum loops i,k fused - size 5\nnode 00 sum loops i,k fused - size 5\nnode 0 max loops i,k fused - size 5\nnode 0 sum loops i,,k fused - size 5\nnode 0 sum loops i,sum fused - size 5\nnode 0 sum loops a,b,c,d,e,f,g,h,i,j,k fused - size 5\nnode 0 sum loops i,k fused i,- size 5\nnode 0 sum loops i,k fused - size 05\nnode 0 sum loops i,k fused - size 79228162514264337593543950336";

const WRONG_TREE: &str =
    "node 1 sum loops i,k fused - size 5\nnode 0 product loops i,k fused - size 5\nnode 0 sum loops i,k result\nnode 0 sum loops i,z fused - size 5\nnode 0 sum loops i fused - size 5\nnode 0 sum loops i,i fused - size 5\nnode 0 sum loops i,k,j fused - size 5\nnode 0 sum loops i,k fused k size 5\nnode 0 sum loops i,k fused i,i size 5\nnode 0 sum loops - fused a,b,c,d,e,f,g,h,i,j,k size 5";

#[test]
fn lines_of_a_tree_are_read(rt: HostRuntime) {
    let spec = spec_of(&rt, rt.alloc(), TWO_SUMS);
    let line = "node 0 sum loops i,k fused - size 5";
    check_read(&rt, &spec, 0, line, ("02", "-", 5));
    let line = "node 1 sum loops j,l fused j size 1";
    check_read(&rt, &spec, 1, line, ("13", "1", 1));
    let line = "node 1 sum loops l,j fused - size 79228162514264337593543950335";
    check_read(
        &rt,
        &spec,
        1,
        line,
        ("31", "-", 79228162514264337593543950335),
    );
    let line = "node 2 product loops j,i result";
    check_read(&rt, &spec, 2, line, ("10", "-", 0));
    drop(spec);
}

#[test]
fn lines_that_a_tree_has_not(rt: HostRuntime) {
    let spec = spec_of(&rt, rt.alloc(), TWO_SUMS);
    check_fault(&rt, &spec, 0, BAD_TEXT, 1);
    check_fault(&rt, &spec, 0, WRONG_TREE, 2);
    let root = "node 2 product loops i,j fused - size 0";
    check_fault(&rt, &spec, 2, root, 2);
    drop(spec);
}

#[test]
fn fused_indexes_are_read_in_order_of_declaration(rt: HostRuntime) {
    let spec = spec_of(&rt, rt.alloc(), THREE_SUMS);
    let line = "node 1 sum loops b,c,d,f,e,l fused b,c,d,f size 1";
    check_read(&rt, &spec, 1, line, ("123549", "1235", 1));
    let turned = "node 1 sum loops b,c,d,f,e,l fused c,b,d,f size 1";
    check_fault(&rt, &spec, 1, turned, 2);
    drop(spec);
}
