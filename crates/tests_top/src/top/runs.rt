//! Runs of worked formulas.

use super::given::check_rows;

// A row is the words, the specification, the operands, the report, the one taking, the result, and what is run.
// Sevens stand in the place of the result before, in as many bytes as four elements take.
const RUN: &str = "%|s.tce:%;!=C.tca .7*80;%|0|%|%|%";

const BUDGETS: &str = "\
3|3
7|7
8|8
1099511627776|8";

const BUDGET: &str =
    "run s.tce %|s.tce:range N 2/index N i j/tensor A[N]/tensor B[N]/tensor C[N,N]/C[i,j] = A[i] * B[j]/;A 1 2 1 1 2;B 1 2 1 3 4|0|..|0 %|C 2 2 2 1 1 3 4 6 8";

#[test]
fn budgets_bound_what_is_taken(rt: HostRuntime) {
    check_rows(&rt, rt.alloc(), BUDGET, BUDGETS);
}

// The second time over the result of the first.
const AGAIN: &str =
    "run s.tce 3|s.tce:range N 2/index N i j/tensor A[N]/tensor B[N]/tensor C[N,N]/C[i,j] = A[i] * B[j]/;A 1 2 1 1 2;B 1 2 1 3 4|0|tce run 1/node 0 product loops i,j result/memory 0/tiles 3/wrote C.tca 80/|0 3|C 2 2 2 1 1 3 4 6 8;A 1 2 1 1 2;B 1 2 1 3 4\nrun s.tce 3||0|tce run 1/node 0 product loops i,j result/memory 0/tiles 3/wrote C.tca 80/|0 3|C 2 2 2 1 1 3 4 6 8;A 1 2 1 1 2;B 1 2 1 3 4";

#[test]
fn a_run_writes_the_outer_product_each_time(rt: HostRuntime) {
    check_rows(&rt, rt.alloc(), AGAIN, "");
}

const FORMULAS: &str = "\
run s.tce 3|range N 2/index N i j k/tensor A[N,N]/tensor B[N,N]/tensor C[N,N]/C[i,j] = sum{k}(A[i,k] * B[k,j])/|A 2 2 2 1 1 1 2 3 4;B 2 2 2 1 1 5 6 7 8|tce run 1/node 0 product loops i,j,k fused i,j,k size 1/node 1 sum loops i,j,k result/memory 1/tiles 3/wrote C.tca 80/|1 3|C 2 2 2 1 1 19 22 43 50|a product of matrices
run s.tce 3|range N 2/index N i j/tensor A[N,N]/tensor B[N,N]/tensor C[N]/C[j] = sum{i}(A[i,j]) * sum{i}(B[i,j])/|A 2 2 2 1 1 1 2 3 4;B 2 2 2 1 1 5 6 7 8|tce run 1/node 0 sum loops j,i fused j size 1/node 1 sum loops j,i fused j size 1/node 2 product loops j result/memory 2/tiles 3/wrote C.tca 48/|2 3|C 1 2 1 48 84|two sums
run s.tce 3|range N 2/index N i/tensor A[N]/tensor B[N]/tensor C[N]/C[i] = A[i] * B[i]/|A 1 2 1 9223372036854775808 18446744073709551615;B 1 2 1 2 18446744073709551615|tce run 1/node 0 product loops i result/memory 0/tiles 3/wrote C.tca 48/|0 3|C 1 2 1 0 1|a product of vectors that wraps round
run s.tce 3|tensor A[]/tensor B[]/tensor C[]/C[] = A[] * B[]/|A 0 6;B 0 7|tce run 1/node 0 product loops - result/memory 0/tiles 3/wrote C.tca 24/|0 3|C 0 42|tensors without indexes
run s.tce 3|range N 2/index N i/tensor A[N,N]/tensor C[]/C[] = sum{i}(A[i,i])/|A 2 2 2 1 1 1 2 3 4|tce run 1/node 0 sum loops i result/memory 0/tiles 3/wrote C.tca 24/|0 3|C 0 5|a diagonal
run s.tce 6|range N 5 tile 2/index N i/tensor A[N]/tensor B[N]/tensor C[N]/C[i] = A[i] * B[i]/|A 1 5 2 1 2 3 4 5 9;B 1 5 2 1*5 0|tce run 1/node 0 product loops i result/memory 0/tiles 6/wrote C.tca 80/|0 6|C 1 5 2 1 2 3 4 5 0|vectors in tiles
run s.tce 12|range N 4 tile 2/index N i j k/tensor A[N,N]/tensor B[N,N]/tensor C[N,N]/C[i,j] = sum{k}(A[i,k] * B[k,j])/|A 2 4 4 2 2 1 2 5 6 3 4 7 8 9 10 13 14 11 12 15 16;B 2 4 4 2 2 1 0 0 1 0*8 1 0 0 1|tce run 1/node 0 product loops i,j,k fused i,j,k size 1/node 1 sum loops i,j,k result/memory 1/tiles 12/wrote C.tca 176/|1 12|C 2 4 4 2 2 1 2 5 6 3 4 7 8 9 10 13 14 11 12 15 16|matrices in tiles
run s.tce 12|range N 2 tile 2/index N i j k/tensor A[N,N]/tensor C[N,N]/C[i,j] = sum{k}(A[i,k] * A[k,j])/|A 2 2 2 2 2 1 2 3 4|tce run 1/node 0 product loops i,j,k fused i,j,k size 1/node 1 sum loops i,j,k result/memory 1/tiles 12/wrote C.tca 80/|1 12|C 2 2 2 2 2 7 10 15 22|a square in one tile
run s.tce 3|range N 2/index N i j/tensor A[N]/tensor B[N]/tensor C[N,N]/C[i,j] = A[i] + B[j]/|A 1 2 1 1 2;B 1 2 1 3 4|tce run 1/node 0 add loops i,j result/memory 0/tiles 3/wrote C.tca 80/|0 3|C 2 2 2 1 1 4 5 5 6|an addition
run s.tce 3|range N 2/index N i/tensor A[N]/tensor B[N]/tensor C[N]/C[i] = 2 * A[i] - B[i] + 1/|A 1 2 1 1 2;B 1 2 1 5 5|tce run 1/node 0 product loops i fused i size 1/node 1 sub loops i fused i size 1/node 2 add loops i result/memory 2/tiles 3/wrote C.tca 48/|2 3|C 1 2 1 18446744073709551614 0|a chain with constants
run s.tce 3|tensor C[]/C[] = 2 + 3/||tce run 1/node 0 add loops - result/memory 0/tiles 3/wrote C.tca 24/|0 3|C 0 5|constants alone
run s.tce 5000|range N 34/index N i j/tensor A[N]/tensor B[N]/tensor C[N,N]/C[i,j] = A[i] * B[j]/|A 1 34 1 2*34;B 1 34 1 3*34|tce run 1/node 0 product loops i,j result/memory 0/tiles 1224/wrote C.tca 9296/|0 1224|C 2 34 34 1 1 6*1156|a frame for each of many tiles
run s.tce 5|range N 2/index N i/tensor A[N]/tensor B[N]/tensor C[N]/C[i] = A[i] * B[i]/|A 1 2 1 9223372036854775808 18446744073709551615;B 1 2 1 2 18446744073709551615|tce run 1/node 0 product loops i result/memory 0/tiles 5/wrote C.tca 48/|0 5|C 1 2 1 0 1|elements that wrap round, in more frames
run s.tce 100|tensor A[]/tensor B[]/tensor C[]/C[] = A[] * B[]/|A 0 6;B 0 7|tce run 1/node 0 product loops - result/memory 0/tiles 3/wrote C.tca 24/|0 3|C 0 42|a frame for each of three tiles
run s.tce 7|range N 5 tile 2/index N i/tensor A[N]/tensor B[N]/tensor C[N]/C[i] = A[i] * B[i]/|+A 1 8 5 2 1 2 3 4 1099511627776 9;+B 1 4 5 2 ~1 ~1 ~1 ~4294967295 ~2 ~7|tce run 1/node 0 product loops i result/memory 0/tiles 6/wrote C.tca 80/|0 6|C 1 5 2 1 2 3 18446744073709551612 2199023255552 0|elements of eight and of four bytes, the padding of which is not looked at
run s.tce 4|range N 2/index N i j/tensor A[N,N]/tensor B[N,N]/tensor C[N]/C[j] = sum{i}(A[i,j]) * sum{i}(B[i,j])/|A 2 2 2 1 1 1 2 3 4;B 2 2 2 1 1 5 6 7 8|tce run 1/node 0 sum loops j,i fused j size 1/node 1 sum loops j,i fused j size 1/node 2 product loops j result/memory 2/tiles 4/wrote C.tca 48/|2 4|C 1 2 1 48 84|two sums in four frames
run s.tce 100|range N 2/index N i/tensor A[N,N]/tensor C[]/C[] = sum{i}(A[i,i])/|A 2 2 2 1 1 1 2 3 4|tce run 1/node 0 sum loops i result/memory 0/tiles 5/wrote C.tca 24/|0 5|C 0 5|a diagonal in a frame for each tile
run s.tce 100|range I 5/range J 7/range K 2/index I i/index J j/index K k l/tensor A[I,K]/tensor B[J,K]/tensor C[I,J]/C[i,j] = (sum{k}(A[i,k])) * (sum{l}(B[j,l]))/|A 2 5 2 1 1 1*10;B 2 7 2 1 1 1*14|tce run 1/node 0 sum loops i,k fused - size 5/node 1 sum loops j,l fused j size 1/node 2 product loops j,i result/memory 6/tiles 59/wrote C.tca 328/|6 59|C 2 5 7 1 1 4*35|two sums, of which one is kept whole";

#[test]
fn worked_formulas_are_run(rt: HostRuntime) {
    check_rows(&rt, rt.alloc(), RUN, FORMULAS);
}

// Several plans are least, so that only the end of the report is given.
const FOUR_TENSORS: &str =
    "run s.tce 3|range V 3/range O 2/index V a b c d e f/index O i j k l/tensor A[V,V,O,O]/tensor B[V,V,V,O]/tensor C[V,V,O,O]/tensor D[V,V,V,O]/tensor S[V,V,O,O]/S[a,b,i,j] = sum{c,k}(sum{d,f}(sum{e,l}(B[b,e,f,l] * D[c,d,e,l]) * C[d,f,j,k]) * A[a,c,i,k])/|A 4 3 3 2 2 1 1 1 1 1*36;B 4 3 3 3 2 1 1 1 1 1*54;C 4 3 3 2 2 1 1 1 1 1*36;D 4 3 3 3 2 1 1 1 1 1*54|../memory 8/tiles 3/wrote S.tca 368/|8 3|S 4 3 3 2 2 1 1 1 1 324*36";

#[test]
fn four_tensors_are_run_in_three_tiles(rt: HostRuntime) {
    check_rows(&rt, rt.alloc(), RUN, FOUR_TENSORS);
}

// As many products as 19 GB hold in words, each used at once. It is to end within a minute.
const LARGE: &str =
    "run s.tce 12288|range N 49152 tile 4096/index N i j/tensor A[N]/tensor B[N]/tensor S[]/S[] = sum{i,j}(A[i] * B[j])/|A 1 49152 4096 1*49152;B 1 49152 4096 1*49152|tce run 1/node 0 product loops i,j fused i,j size 1/node 1 sum loops i,j result/memory 1/tiles 12288/wrote S.tca 24/|1 12288|S 0 2415919104|a product too large for memory";

#[test]
fn a_product_too_large_for_memory_is_run(rt: HostRuntime) {
    check_rows(&rt, rt.alloc(), RUN, LARGE);
}

// The outer product in lines with carriage returns, of which the last has no end, and in 64 parentheses.
const OTHER_TEXTS: &str = "\
run s.tce 3|# the outer product\r/range N 2\r/index N i j\r/tensor A[N]\r/tensor B[N]\r/tensor C[N,N]\r/C[i,j] = A[i] * B[j]|A 1 2 1 1 2;B 1 2 1 3 4|tce run 1/node 0 product loops i,j result/memory 0/tiles 3/wrote C.tca 80/|0 3|C 2 2 2 1 1 3 4 6 8|carriage returns
run s.tce 3|range N 2/index N i j/tensor A[N]/tensor B[N]/tensor C[N,N]/C[i,j] = ((((((((((((((((((((((((((((((((((((((((((((((((((((((((((((((((A[i] * B[j]))))))))))))))))))))))))))))))))))))))))))))))))))))))))))))))))/|A 1 2 1 1 2;B 1 2 1 3 4|tce run 1/node 0 product loops i,j result/memory 0/tiles 3/wrote C.tca 80/|0 3|C 2 2 2 1 1 3 4 6 8|64 parentheses";

#[test]
fn texts_of_one_specification_are_run_alike(rt: HostRuntime) {
    check_rows(&rt, rt.alloc(), RUN, OTHER_TEXTS);
}
