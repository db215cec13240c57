//! What is large and within all limits, with ample memory: no want of it is answered.

use super::given::{LINE, check_rows};

// A row is a formula of vectors, and its report from its end. With 33 factors there are 32 operations, with 34 one more.
const OPERATIONS: &str = "\
run s.tce 3|s.tce:range N 2/index N i/tensor A[N]/tensor C[N]/C[i] = (((((((((((((((((((((((((((((((A[i] * A[i]) * A[i]) * A[i]) * A[i]) * A[i]) * A[i]) * A[i]) * A[i]) * A[i]) * A[i]) * A[i]) * A[i]) * A[i]) * A[i]) * A[i]) * A[i]) * A[i]) * A[i]) * A[i]) * A[i]) * A[i]) * A[i]) * A[i]) * A[i]) * A[i]) * A[i]) * A[i]) * A[i]) * A[i]) * A[i]) * A[i]) * A[i]/;A 1 2 1 1 3|0|tce run 1/node 0 product loops i fused i size 1/node 1 ..node 31 product loops i result/memory 31/tiles 3/wrote C.tca 48/|31 3|C 1 2 1 1 5559060566555523
run s.tce 3|s.tce:range N 2/index N i/tensor A[N]/tensor C[N]/C[i] = ((((((((((((((((((((((((((((((((A[i] * A[i]) * A[i]) * A[i]) * A[i]) * A[i]) * A[i]) * A[i]) * A[i]) * A[i]) * A[i]) * A[i]) * A[i]) * A[i]) * A[i]) * A[i]) * A[i]) * A[i]) * A[i]) * A[i]) * A[i]) * A[i]) * A[i]) * A[i]) * A[i]) * A[i]) * A[i]) * A[i]) * A[i]) * A[i]) * A[i]) * A[i]) * A[i]) * A[i]/;A 1 2 1 1 3|2|error 2: line 5: more than 32 operations/||-C";

#[test]
fn a_formula_may_have_32_operations(rt: HostRuntime) {
    check_rows(&rt, rt.alloc(), LINE, OPERATIONS);
}

// Three sums over 8, 8 and 7 indexes of tensors of ones, so 2^23 times the vector.
const INDEXES: &str =
    "run s.tce 3|s.tce:range N 2/index N a b c d e f g h i j k l m n o p q r s t u v w x/tensor A[N]/tensor T[N,N,N,N,N,N,N,N]/tensor U[N,N,N,N,N,N,N]/tensor C[N]/C[a] = ((A[a] * sum{b,c,d,e,f,g,h,i}(T[b,c,d,e,f,g,h,i])) * sum{j,k,l,m,n,o,p,q}(T[j,k,l,m,n,o,p,q])) * sum{r,s,t,u,v,w,x}(U[r,s,t,u,v,w,x])/;A 1 2 1 1 3;T 8 2*8 1*8 1*256;U 7 2*7 1*7 1*128|0|..memory 5/tiles 3/wrote C.tca 48/|5 3|C 1 2 1 8388608 25165824";

#[test]
fn a_formula_may_have_24_indexes(rt: HostRuntime) {
    check_rows(&rt, rt.alloc(), LINE, INDEXES);
}

// 17 and 31 formulas. The last one reads what the ones before wrote, or has no operand.
const FORMULAS: &str = "\
C[i] = A[i] * A[i]/C[i] = A[i] * A[i]/C[i] = A[i] * A[i]/C[i] = A[i] * A[i]/C[i] = A[i] * A[i]/C[i] = A[i] * A[i]/C[i] = A[i] * A[i]/C[i] = A[i] * A[i]/C[i] = A[i] * A[i]/C[i] = A[i] * A[i]/C[i] = A[i] * A[i]/C[i] = A[i] * A[i]/C[i] = A[i] * A[i]/C[i] = A[i] * A[i]/C[i] = A[i] * A[i]/C[i] = A[i] * A[i]/|B[i] = A[i] * C[i]|0|..formula 17/node 0 product loops i result/memory 0/tiles 3/wrote B.tca 48/|..|B 1 2 1 1 27
C[i] = A[i] * A[i]/C[i] = A[i] * A[i]/C[i] = A[i] * A[i]/C[i] = A[i] * A[i]/C[i] = A[i] * A[i]/C[i] = A[i] * A[i]/C[i] = A[i] * A[i]/C[i] = A[i] * A[i]/C[i] = A[i] * A[i]/C[i] = A[i] * A[i]/C[i] = A[i] * A[i]/C[i] = A[i] * A[i]/C[i] = A[i] * A[i]/C[i] = A[i] * A[i]/C[i] = A[i] * A[i]/C[i] = A[i] * A[i]/|C[i] = A[i] * B[i]|3|error 3: no file B.tca/||-C
C[i] = A[i] * A[i]/C[i] = A[i] * A[i]/C[i] = A[i] * A[i]/C[i] = A[i] * A[i]/C[i] = A[i] * A[i]/C[i] = A[i] * A[i]/C[i] = A[i] * A[i]/C[i] = A[i] * A[i]/C[i] = A[i] * A[i]/C[i] = A[i] * A[i]/C[i] = A[i] * A[i]/C[i] = A[i] * A[i]/C[i] = A[i] * A[i]/C[i] = A[i] * A[i]/C[i] = A[i] * A[i]/C[i] = A[i] * A[i]/C[i] = A[i] * A[i]/C[i] = A[i] * A[i]/C[i] = A[i] * A[i]/C[i] = A[i] * A[i]/C[i] = A[i] * A[i]/C[i] = A[i] * A[i]/C[i] = A[i] * A[i]/C[i] = A[i] * A[i]/C[i] = A[i] * A[i]/C[i] = A[i] * A[i]/C[i] = A[i] * A[i]/C[i] = A[i] * A[i]/C[i] = A[i] * A[i]/C[i] = A[i] * A[i]/|B[i] = A[i] * C[i]|0|..formula 31/node 0 product loops i result/memory 0/tiles 3/wrote B.tca 48/|..|B 1 2 1 1 27
C[i] = A[i] * A[i]/C[i] = A[i] * A[i]/C[i] = A[i] * A[i]/C[i] = A[i] * A[i]/C[i] = A[i] * A[i]/C[i] = A[i] * A[i]/C[i] = A[i] * A[i]/C[i] = A[i] * A[i]/C[i] = A[i] * A[i]/C[i] = A[i] * A[i]/C[i] = A[i] * A[i]/C[i] = A[i] * A[i]/C[i] = A[i] * A[i]/C[i] = A[i] * A[i]/C[i] = A[i] * A[i]/C[i] = A[i] * A[i]/C[i] = A[i] * A[i]/C[i] = A[i] * A[i]/C[i] = A[i] * A[i]/C[i] = A[i] * A[i]/C[i] = A[i] * A[i]/C[i] = A[i] * A[i]/C[i] = A[i] * A[i]/C[i] = A[i] * A[i]/C[i] = A[i] * A[i]/C[i] = A[i] * A[i]/C[i] = A[i] * A[i]/C[i] = A[i] * A[i]/C[i] = A[i] * A[i]/C[i] = A[i] * A[i]/|C[i] = A[i] * B[i]|3|error 3: no file B.tca/||-C";

const BATCH: &str =
    "batch s.tce 3|s.tce:range N 2/index N i/tensor A[N]/tensor B[N]/tensor C[N]/%%/;A 1 2 1 1 3|%|%|%|%";

#[test]
fn many_formulas_are_run_and_refused(rt: HostRuntime) {
    check_rows(&rt, rt.alloc(), BATCH, FORMULAS);
}

// 300 items of a path, of which all but the first name the one entry that is left; and one more that names another.
const PATHS: &str = "\
einsum a,a->a@a=2 0,1;0;0;0;0;0;0;0;0;0;0;0;0;0;0;0;0;0;0;0;0;0;0;0;0;0;0;0;0;0;0;0;0;0;0;0;0;0;0;0;0;0;0;0;0;0;0;0;0;0;0;0;0;0;0;0;0;0;0;0;0;0;0;0;0;0;0;0;0;0;0;0;0;0;0;0;0;0;0;0;0;0;0;0;0;0;0;0;0;0;0;0;0;0;0;0;0;0;0;0;0;0;0;0;0;0;0;0;0;0;0;0;0;0;0;0;0;0;0;0;0;0;0;0;0;0;0;0;0;0;0;0;0;0;0;0;0;0;0;0;0;0;0;0;0;0;0;0;0;0;0;0;0;0;0;0;0;0;0;0;0;0;0;0;0;0;0;0;0;0;0;0;0;0;0;0;0;0;0;0;0;0;0;0;0;0;0;0;0;0;0;0;0;0;0;0;0;0;0;0;0;0;0;0;0;0;0;0;0;0;0;0;0;0;0;0;0;0;0;0;0;0;0;0;0;0;0;0;0;0;0;0;0;0;0;0;0;0;0;0;0;0;0;0;0;0;0;0;0;0;0;0;0;0;0;0;0;0;0;0;0;0;0;0;0;0;0;0;0;0;0;0;0;0;0;0;0;0;0;0;0;0;0;0;0;0;0;0;0;0;0;0;0;0;0;0;0;0;0;0 s.tce||0|tce einsum 1/nodes 1/wrote s.tce 84/||s.tce:range N0 2/index N0 a/tensor X0[N0]/tensor X1[N0]/tensor Y[N0]/Y[a] = X0[a] * X1[a]/
einsum a,a->a@a=2 0,1;0;0;0;0;0;0;0;0;0;0;0;0;0;0;0;0;0;0;0;0;0;0;0;0;0;0;0;0;0;0;0;0;0;0;0;0;0;0;0;0;0;0;0;0;0;0;0;0;0;0;0;0;0;0;0;0;0;0;0;0;0;0;0;0;0;0;0;0;0;0;0;0;0;0;0;0;0;0;0;0;0;0;0;0;0;0;0;0;0;0;0;0;0;0;0;0;0;0;0;0;0;0;0;0;0;0;0;0;0;0;0;0;0;0;0;0;0;0;0;0;0;0;0;0;0;0;0;0;0;0;0;0;0;0;0;0;0;0;0;0;0;0;0;0;0;0;0;0;0;0;0;0;0;0;0;0;0;0;0;0;0;0;0;0;0;0;0;0;0;0;0;0;0;0;0;0;0;0;0;0;0;0;0;0;0;0;0;0;0;0;0;0;0;0;0;0;0;0;0;0;0;0;0;0;0;0;0;0;0;0;0;0;0;0;0;0;0;0;0;0;0;0;0;0;0;0;0;0;0;0;0;0;0;0;0;0;0;0;0;0;0;0;0;0;0;0;0;0;0;0;0;0;0;0;0;0;0;0;0;0;0;0;0;0;0;0;0;0;0;0;0;0;0;0;0;0;0;0;0;0;0;0;0;0;0;0;0;0;0;0;0;0;0;0;0;0;0;0;0;1 s.tce||14|error 14: path item 300/||-=s.tce";

#[test]
fn a_path_may_have_hundreds_of_items(rt: HostRuntime) {
    check_rows(&rt, rt.alloc(), LINE, PATHS);
}

// As many frames as the budget has words.
const FRAMES: &str =
    "run s.tce 5000|s.tce:range N 1700/index N i/tensor A[N]/tensor B[N]/tensor C[N]/C[i] = A[i] * B[i]/;A 1 1700 1 1*1700;B 1 1700 1 2*1700|0|tce run 1/node 0 product loops i result/memory 0/tiles 5000/wrote C.tca 13632/|0 5000|C 1 1700 1 2*1700";

#[test]
fn frames_may_be_many(rt: HostRuntime) {
    check_rows(&rt, rt.alloc(), LINE, FRAMES);
}
