//! Several formulas in order.

use super::given::{LINE, check_rows};

const TWO_PRODUCTS: &str =
    "batch s.tce 3|s.tce:range N 2/index N i j k/tensor A[N,N]/tensor B[N,N]/tensor C[N,N]/tensor D[N,N]/C[i,j] = sum{k}(A[i,k] * B[k,j])/D[i,j] = sum{k}(C[i,k] * A[k,j])/;A 2 2 2 1 1 1 2 3 4;B 2 2 2 1 1 5 6 7 8|0|tce batch 1/formula 1/node 0 product loops i,j,k fused i,j,k size 1/node 1 sum loops i,j,k result/memory 1/tiles 3/wrote C.tca 80/formula 2/node 0 product loops i,j,k fused i,j,k size 1/node 1 sum loops i,j,k result/memory 1/tiles 3/wrote D.tca 80/|1 3,1 3|C 2 2 2 1 1 19 22 43 50;D 2 2 2 1 1 85 126 193 286";

#[test]
fn a_result_is_an_operand_of_the_next_formula(rt: HostRuntime) {
    check_rows(&rt, rt.alloc(), LINE, TWO_PRODUCTS);
}

// A row is the budget, the formulas, the operands, the exit status and the line of what is refused. No file changes.
const REFUSAL: &str =
    "batch s.tce %|s.tce:range N 2/index N i j k/tensor A[N,N]/tensor B[N,N]/tensor C[N,N]/tensor D[N,N]/%;%|%|%/||-C;-D";

const UNKNOWN: &str =
    "3|C[i,j] = sum{k}(A[i,k] * B[k,j])/D[i,j] = sum{k}(Z[i,k] * A[k,j])/|A 2 2 2 1 1 1 2 3 4;B 2 2 2 1 1 5 6 7 8|2|error 2: line 8: unknown name Z";

#[test]
fn a_name_of_the_second_formula_may_be_unknown(rt: HostRuntime) {
    check_rows(&rt, rt.alloc(), REFUSAL, UNKNOWN);
}

const MISSING: &str =
    "3|C[i,j] = sum{k}(A[i,k] * B[k,j])/D[i,j] = sum{k}(C[i,k] * A[k,j])/|A 2 2 2 1 1 1 2 3 4|3|error 3: no file B.tca";

#[test]
fn an_operand_of_the_first_formula_may_be_missing(rt: HostRuntime) {
    check_rows(&rt, rt.alloc(), REFUSAL, MISSING);
}

const REFUSED: &str = "\
3|C[i,j] = sum{k}(A[i,k] * B[k,j])/C and D/D[i,j] = sum{k}(C[i,k] * A[k,j])/|A 2 2 2 1 1 1 2 3 4;B 2 2 2 1 1 5 6 7 8|2|error 2: line 8: bad text
3|C[i,j] = sum{k}(A[i,k] * B[k,j])/tensor E[N]/D[i,j] = sum{k}(C[i,k] * A[k,j])/|A 2 2 2 1 1 1 2 3 4;B 2 2 2 1 1 5 6 7 8|2|error 2: line 8: bad text
3|C[i,j] = sum{k}(A[i,k] * B[k,j])/D[i,j] = (((((((((((((((((((((((((((((((((((((((((((((((((((((((((((((((((C[i,j] * A[i,j])))))))))))))))))))))))))))))))))))))))))))))))))))))))))))))))))/|A 2 2 2 1 1 1 2 3 4;B 2 2 2 1 1 5 6 7 8|2|error 2: line 8: bad text
3|D[i,j] = sum{k}(C[i,k] * A[k,j])/C[i,j] = sum{k}(A[i,k] * B[k,j])/|A 2 2 2 1 1 1 2 3 4;B 2 2 2 1 1 5 6 7 8|3|error 3: no file C.tca
3|C[i,j] = A[i,j] * A[i,j]/D[i,j] = sum{k}(C[i,k] * B[k,j])/|A 2 2 2 1 1 1 2 3 4|3|error 3: no file B.tca
3|C[i,j] = A[i,j] * A[i,j]/D[i,j] = sum{k}(C[i,k] * B[k,j])/|A 2 2 2 1 1 1 2 3 4;B 2 2 1 1 1 5 6|4|error 4: B.tca: length 64
2|C[i,j] = A[i,j] * A[i,j]/D[i,j] = sum{k}(C[i,k] * B[k,j])/||5|error 5: budget needs 3";

#[test]
fn the_first_fault_of_the_formulas_is_told(rt: HostRuntime) {
    check_rows(&rt, rt.alloc(), REFUSAL, REFUSED);
}

const WIDE: &str = "\
batch s.tce 8|s.tce:range N 2/range M 3 tile 3/index N i/index M m/tensor A[N]/tensor B[M]/tensor C[N]/tensor D[N]/tensor E[M]/C[i] = A[i] * A[i]/D[i] = C[i] * A[i]/E[m] = B[m] * B[m]/;A 1 2 1 1 2|5|error 5: budget needs 9/||-C;-D
batch s.tce 9|s.tce:range N 2/range M 3 tile 3/index N i/index M m/tensor A[N]/tensor B[M]/tensor C[N]/tensor D[N]/tensor E[M]/C[i] = A[i] * A[i]/D[i] = C[i] * A[i]/E[m] = B[m] * B[m]/;A 1 2 1 1 2|3|error 3: no file B.tca/||-C";

#[test]
fn the_budget_of_the_third_formula_alone_may_be_too_small(rt: HostRuntime) {
    check_rows(&rt, rt.alloc(), LINE, WIDE);
}

const ONE_FORMULA: &str = "\
batch s.tce 3|s.tce:range N 2/index N i j/tensor A[N]/tensor B[N]/tensor C[N,N]/C[i,j] = A[i] * B[j]/;A 1 2 1 1 2;B 1 2 1 3 4|0|tce batch 1/formula 1/node 0 product loops i,j result/memory 0/tiles 3/wrote C.tca 80/|0 3|C 2 2 2 1 1 3 4 6 8
batch s.tce 3|s.tce:;A 1 2 1 1 2;B 1 2 1 3 4|2|error 2: line 1: bad text/||";

#[test]
fn one_formula_is_run_as_a_specification_is(rt: HostRuntime) {
    check_rows(&rt, rt.alloc(), LINE, ONE_FORMULA);
}
