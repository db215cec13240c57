//! What is refused, with its exit status and its line.

use super::given::check_rows;

// A row is words that are no command.
const BAD: &str =
    "%|s.tce:range N 2/index N i j/tensor A[N]/tensor B[N]/tensor C[N,N]/C[i,j] = A[i] * B[j]/;A 1 2 1 1 2;B 1 2 1 3 4|1|error 1: bad words/||-C;-=demo.tce";

const BAD_RUNS: &str = "\
run
run s.tce
run s.tce 3 3
ran s.tce 3
Run s.tce 3
3 s.tce run
run s.tc 3
run s.txt 3
run .tce 3
run s:s.tce 3
run s.tce 012
run s.tce +3
run s.tce 3x
run s.tce -
run s.tce 1099511627777
run s.tce 18446744073709551619
batch
batch s.tce
batch s.tce 3 3
batch s.txt 3
batch s.tce 012
batch s.tce 1099511627777";

#[test]
fn other_words_are_bad_words(rt: HostRuntime) {
    check_rows(&rt, rt.alloc(), BAD, "");
    check_rows(&rt, rt.alloc(), BAD, BAD_RUNS);
}

const BAD_DEMONSTRATIONS: &str = "\
demo
demo 1 1
demo 1 1 1 1
demo 0 1 1
demo 2147483647 1 1
demo 1 0 1
demo 1 1 0
demo 1 33 1
demo 1 1 33
demo 01 1 1
demo s.tce 1 1";

#[test]
fn other_words_of_a_demonstration_are_bad_words(rt: HostRuntime) {
    check_rows(&rt, rt.alloc(), BAD, BAD_DEMONSTRATIONS);
}

// A row is the words, the files, the exit status and the line of what is refused. No file changes.
const REFUSAL: &str =
    "%|s.tce:range N 2/index N i j/tensor A[N]/tensor B[N]/tensor C[N,N]/C[i,j] = A[i] * B[j]/;%|%|%/||-C";

const REFUSED_RUNS: &str = "\
run t.tce 3|A 1 2 1 1 2;B 1 2 1 3 4|3|error 3: no file t.tce
run s.tce 2||5|error 5: budget needs 3
run s.tce 0|A 1 2 1 1 2;B 1 2 1 3 4|5|error 5: budget needs 3
run s.tce 3|B 1 2 1 3 4|3|error 3: no file A.tca
run s.tce 3|A 1 2 1 1 2|3|error 3: no file B.tca
run s.tce 3|A 2 2 2 1 1 3 4 6 8|4|error 4: A.tca: length 80
run s.tce 3|A 1 2 1 1 2;B 1 3 1 3 4|4|error 4: B.tca: head byte 16
run s.tce 3|A 1 2 2 1 2;B 1 2 1 3 4|4|error 4: A.tca: head byte 24
run s.tce 3|A 18446744073709551615 2 1 1 2;B 1 2 1 3 4|4|error 4: A.tca: head byte 8
run s.tce 3|B 1 2 1 1|3|error 3: no file A.tca
run s.tce 3|A 1 2 1 1|4|error 4: A.tca: length 40
run s.tce 3|A 1 2 1 1 2;B 1 2 2 1 2|4|error 4: B.tca: head byte 24
run s.tce 2|B 1 2 1 3 4|5|error 5: budget needs 3
plan t.tce||3|error 3: no file t.tce";

#[test]
fn a_run_needs_its_budget_and_its_operands(rt: HostRuntime) {
    check_rows(&rt, rt.alloc(), REFUSAL, REFUSED_RUNS);
}

// Its last byte is missing.
const CUT_OFF: &str = "run s.tce 3|A 1 2 1 1 .2 .0*6;B 1 2 1 3 4|4|error 4: A.tca: length 47";

#[test]
fn a_cut_off_operand_is_refused(rt: HostRuntime) {
    check_rows(&rt, rt.alloc(), REFUSAL, CUT_OFF);
}

// A row is the budget, the files, the exit status and the line.
const EARLY: &str = "\
3|s.tce:range N 2097152/range K 1/index N a b c d/index K k/tensor A[N,N,K]/tensor B[N,N,K]/tensor S[N,N]/S[c,d] = sum{a,b}(sum{k}(A[a,b,k]) * sum{k}(B[c,d,k]))/|6|error 6: intermediates 4398046511106
2|s.tce:range N 2097152/range K 1/index N a b c d/index K k/tensor A[N,N,K]/tensor B[N,N,K]/tensor S[N,N]/S[c,d] = sum{a,b}(sum{k}(A[a,b,k]) * sum{k}(B[c,d,k]))/|5|error 5: budget needs 3
7679|s.tce:range V 40 tile 8/range O 10 tile 5/index V a b c d e f/index O i j k l/tensor A[V,V,O,O]/tensor B[V,V,V,O]/tensor C[V,V,O,O]/tensor D[V,V,V,O]/tensor S[V,V,O,O]/S[a,b,i,j] = sum{c,k}(sum{d,f}(sum{e,l}(B[b,e,f,l] * D[c,d,e,l]) * C[d,f,j,k]) * A[a,c,i,k])/|5|error 5: budget needs 7680
11|s.tce:range N 4 tile 2/index N i j k/tensor A[N,N]/tensor B[N,N]/tensor C[N,N]/C[i,j] = sum{k}(A[i,k] * B[k,j])/;A 2 4 4 2 2 1 2 5 6 3 4 7 8 9 10 13 14 11 12 15 16;B 2 4 4 2 2 1 0 0 1 0*8 1 0 0 1|5|error 5: budget needs 12
5|s.tce:range N 5 tile 2/index N i/tensor A[N]/tensor B[N]/tensor C[N]/C[i] = A[i] * B[i]/|5|error 5: budget needs 6
3|s.tce:range N 2097152/range K 1/index N a b c d/index K k/tensor A[N,N,K]/tensor B[N,N,K]/tensor S[N,N]/S[c,d] = sum{a,b}(sum{k}(A[a,b,k]) * sum{k}(B[c,d,k]))/;B 1 2 1 1 2|6|error 6: intermediates 4398046511106";

const EARLY_REFUSAL: &str = "run s.tce %|%|%|%/||-C;-S";

#[test]
fn budgets_and_intermediates_come_before_operands(rt: HostRuntime) {
    check_rows(&rt, rt.alloc(), EARLY_REFUSAL, EARLY);
}

// A row is a formula behind the five lines, and its fault.
const FORMULAS: &str = "\
C[i,j] = A[i * B[j]|bad text
C[i,j] = 07 * A[i]|bad number
C[i,j] = A[i] * Z[j]|unknown name Z
C[i,j] = 3|no operation
C[i,j] = sum{i}(3)|sum over absent i
C[i,j] = sum{j}(A[i])|sum over absent j
C[i,j] = A[i] * A[i]|result indexes differ";

const FORMULA: &str =
    "run s.tce 3|s.tce:range N 2/index N i j/tensor A[N]/tensor B[N]/tensor C[N,N]/%/;A 1 2 1 1 2;B 1 2 1 3 4|2|error 2: line 6: %/||-C";

#[test]
fn formulas_are_refused_at_their_first_fault(rt: HostRuntime) {
    check_rows(&rt, rt.alloc(), FORMULA, FORMULAS);
}

// A row is a specification, and its fault, which each of three commands tells.
const SPECIFICATIONS: &str = "\
|line 1: bad text|line 1: bad text|line 1: bad text
range N 0/|line 1: bad number|line 1: bad number|line 1: bad number
range N 02/|line 1: bad number|line 1: bad number|line 1: bad number
range N 2/range N 3/|line 2: N declared twice|line 2: N declared twice|line 2: N declared twice
range A 1/range B 1/range C 1/range D 1/range E 1/range F 1/range G 1/range H 1/range I 1/range J 1/range K 1/range L 1/range M 1/range N 1/range O 1/range P 1/range Q 1/|line 17: limit of ranges passed|line 17: limit of ranges passed|line 17: limit of ranges passed
range N 2/index N i k/tensor A[N]/tensor C[N]/# the formula/C[i] = sum{k}(A[i])/|line 6: sum over absent k|line 6: sum over absent k|line 6: sum over absent k
range N 4294967295/index N i j k/tensor A[N]/tensor B[N]/tensor C[N]/tensor S[]/S[] = sum{i,j,k}((A[i] * B[j]) * C[k])/|line 7: node 1 has too many iterations|line 7: node 1 has too many iterations|line 7: node 1 has too many iterations
range N 1/index N a b c d e f g h i j k/tensor A[N,N,N,N,N,N]/tensor B[N,N,N,N,N]/tensor S[]/S[] = sum{a,b,c,d,e,f,g,h,i,j,k}(A[a,b,c,d,e,f] * B[g,h,i,j,k])/|line 6: node 0 has more than 10 loops|line 6: node 0 has more than 10 loops|line 6: node 0 has more than 10 loops";

const SPECIFICATION: &str =
    "plan s.tce|s.tce:%|2|error 2: %/||\nrun s.tce 3||2|error 2: %/||\ncert s.tce s.cert||2|error 2: %/||-=s.cert";

#[test]
fn specifications_are_refused_at_their_first_fault(rt: HostRuntime) {
    check_rows(&rt, rt.alloc(), SPECIFICATION, SPECIFICATIONS);
}

// 65,537 line feeds, and 65 parentheses.
const TEXTS: &str = "\
=s.tce .10*65537|too long
s.tce:range N 2/index N i j/tensor A[N]/tensor B[N]/tensor C[N,N]/C[i,j] = (((((((((((((((((((((((((((((((((((((((((((((((((((((((((((((((((A[i] * B[j])))))))))))))))))))))))))))))))))))))))))))))))))))))))))))))))))/|line 6: bad text";

const TEXT: &str = "plan s.tce|%|2|error 2: %/||";

#[test]
fn texts_that_are_too_long_or_too_deep_are_refused(rt: HostRuntime) {
    check_rows(&rt, rt.alloc(), TEXT, TEXTS);
}

// Operands come by their first use, which is not the order of their declarations. The third tensor is not used: no
// file of it is looked at, and its tiles do not count. A row is the budget, the files, the exit status and the line.
// What stands in the place of the result stays.
const UNUSED: &str =
    "run s.tce %|s.tce:range N 2/range M 1000 tile 1000/index N i j/tensor B[N]/tensor A[N]/tensor Z[M,M]/tensor C[N,N]/C[i,j] = A[i] * B[j]/;C.tca:not an array;%|%|%/||";

const FIRST_CAUSES: &str = "\
2|A 1 2 1 1 2;B 1 2 1 1 2|5|error 5: budget needs 3
0||5|error 5: budget needs 3
3||3|error 3: no file A.tca
3|B 1 2 1 1 2|3|error 3: no file A.tca
3|A 1 2 1 1 2|3|error 3: no file B.tca
3|A 1 2 2 1 2|4|error 4: A.tca: head byte 24
3|A 1 2 1 1 2;B 1 2 2 1 2|4|error 4: B.tca: head byte 24
3|A 18446744073709551615 2 1 1 2;B 1 2 1 1 2|4|error 4: A.tca: head byte 8
3|=A.tca;=B.tca|4|error 4: A.tca: length 0
3|A 1 2 1 1 2;B 1 2 1 1 ~2 .0*3|4|error 4: B.tca: length 47
3|+A 1 5 2 1 ~4294967295 ~5;B 1 2 1 1 2|4|error 4: A.tca: length 48
3|+A 1 5 2 1 1 2;B 1 2 1 1 2|4|error 4: A.tca: head byte 16";

#[test]
fn the_first_cause_refuses_a_run(rt: HostRuntime) {
    check_rows(&rt, rt.alloc(), UNUSED, FIRST_CAUSES);
}
