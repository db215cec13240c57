//! Tensors that are stored once for each pair.

use super::given::{LINE, check_rows};

// A row is the tensor, a file of stored pairs, the exit status and the text. The first number of a file is the mark
// of its format, as eight letters.
const REFUSAL: &str =
    "expand s.tce %|s.tce:range N 3/range M 2/index N i j k/tensor A[N,N]/tensor B[N,M]/tensor C[N,N]/C[i,k] = sum{j}(A[i,j] * A[j,k])/;%|%|%/||-A";

const REFUSED: &str = "\
A|=A.sym 3544417901347029844 0 1 0 1 2 3 4 5|16|error 16: A.sym: length 72
A|=A.sym 3544417901347029844 0 1|16|error 16: A.sym: length 24
A|=A.sym 3616475495384957780 0 1 0 1 2 3 4 5 6|16|error 16: A.sym: head byte 7
A|=A.sym 3544417901347029844 0 0 0 1 2 3 4 5 6|16|error 16: A.sym: head byte 8
A|=A.sym 3544417901347029844 1 0 0 1 2 3 4 5 6|16|error 16: A.sym: head byte 8
A|=A.sym 3544417901347029844 0 2 0 1 2 3 4 5 6|16|error 16: A.sym: head byte 8
A|=A.sym 3544417901347029844 0 1 2 1 2 3 4 5 6|16|error 16: A.sym: head byte 24
B|=B.sym 3544417901347029844 0 1 0 1 2 3 4 5 6|16|error 16: B.sym: head byte 8
A|=B.sym 3544417901347029844 0 1 0 1 2 3 4 5 6|3|error 3: no file A.sym
Z|=Z.sym 3544417901347029844 0 1 0 1 2 3 4 5 6|12|error 12: no tensor Z";

#[test]
fn files_of_stored_pairs_are_refused(rt: HostRuntime) {
    check_rows(&rt, rt.alloc(), REFUSAL, REFUSED);
}

const SQUARED: &str =
    "expand s.tce A|s.tce:range N 3/range M 2/index N i j k/tensor A[N,N]/tensor B[N,M]/tensor C[N,N]/C[i,k] = sum{j}(A[i,j] * A[j,k])/;=A.sym 3544417901347029844 0 1 0 1 2 3 4 5 6|0|tce expand 1/wrote A.tca 120/||A 2 3 3 1 1 1 2 4 2 3 5 4 5 6\nrun s.tce 3||0|..|..|C 2 3 3 1 1 21 28 38 28 38 53 38 53 77;=A.sym 3544417901347029844 0 1 0 1 2 3 4 5 6";

#[test]
fn a_symmetric_matrix_is_expanded_and_squared(rt: HostRuntime) {
    check_rows(&rt, rt.alloc(), SQUARED, "");
}

const ANTISYMMETRIC: &str =
    "expand s.tce A|s.tce:range N 3/range M 2/index N i j k/tensor A[N,N]/tensor B[N,M]/tensor C[N,N]/C[i,k] = sum{j}(A[i,j] * A[j,k])/;=A.sym 3544417901347029844 0 1 1 1 2 3|0|tce expand 1/wrote A.tca 120/||A 2 3 3 1 1 0 1 2 18446744073709551615 0 3 18446744073709551614 18446744073709551613 0";

#[test]
fn an_antisymmetric_matrix_is_expanded(rt: HostRuntime) {
    check_rows(&rt, rt.alloc(), LINE, ANTISYMMETRIC);
}
