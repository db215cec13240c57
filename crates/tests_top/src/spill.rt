//! A tree in pieces. The lines are those of `given`.

use crate::top::failing::{WITH_ENDS, check_each_call, check_want};
use crate::top::given::{LINE, check_rows};

// All elements are 1 where a tree is cut in two.
const CUT: &str = "\
spill s.tce 100 5|s.tce:range I 5/range J 7/range K 2/index I i/index J j/index K k l/tensor A[I,K]/tensor B[J,K]/tensor C[I,J]/C[i,j] = sum{k}(A[i,k]) * sum{l}(B[j,l])/;A 2 5 2 1 1 1*10;B 2 7 2 1 1 1*14|0|tce spill 1/piece 1 memory 0 tiles 21/piece 2 memory 1 tiles 52/wrote C.tca 328/|0 21,1 52|spill-1 1 7 1 2*7;C 2 5 7 1 1 4*35;-spill-0;-spill-2
spill s.tce 100 6|s.tce:range I 5/range J 7/range K 2/index I i/index J j/index K k l/tensor A[I,K]/tensor B[J,K]/tensor C[I,J]/C[i,j] = sum{k}(A[i,k]) * sum{l}(B[j,l])/;A 2 5 2 1 1 1*10;B 2 7 2 1 1 1*14|0|tce spill 1/piece 2 memory 6 tiles 59/wrote C.tca 328/|6 59|C 2 5 7 1 1 4*35;-spill-0;-spill-1;-spill-2
spill s.tce 12 0|s.tce:range N 2 tile 2/range K 3/index N i j/index K k/tensor A[N]/tensor B[N]/tensor C[N,K]/tensor D[K]/D[k] = sum{i,j}(A[i] * B[j] * C[j,k])/;A 1 2 2 1 2;B 1 2 2 3 4;C 2 2 3 2 1 1 4 2 5 3 6|0|tce spill 1/piece 0 memory 0 tiles 12/piece 1 memory 0 tiles 12/piece 2 memory 0 tiles 12/wrote D.tca 56/|0 12,0 12,0 12|spill-0 2 2 2 2 2 3 4 6 8;spill-1 3 2 2 3 2 2 1 3 16 6 32 6 20 12 40 9 24 18 48;D 1 3 1 57 78 99";

#[test]
fn a_tree_is_cut_where_the_limit_asks_for_it(rt: HostRuntime) {
    check_rows(&rt, rt.alloc(), LINE, CUT);
}

// What stands first is told, and no file changes.
const REFUSED: &str = "\
spill s.tce 0 0|s.tce:range N 1/index N a b c d e f g h i/tensor A[N,N,N,N,N,N,N,N]/tensor B[N]/tensor C[N,N,N,N,N,N,N,N]/C[a,b,c,d,e,f,g,h] = sum{i}(A[a,b,c,d,e,f,g,h] * B[i])/;|15|error 15: piece 1 needs 1/||-A;-C
spill s.tce 3 1|s.tce:range N 1/index N a b c d e f g h i/tensor A[N,N,N,N,N,N,N,N]/tensor B[N]/tensor C[N,N,N,N,N,N,N,N]/C[a,b,c,d,e,f,g,h] = sum{i}(A[a,b,c,d,e,f,g,h] * B[i])/;|3|error 3: no file A.tca/||-C
spill s.tce 0 0|s.tce:range N 2/index N i/tensor a[N]/tensor b[N]/tensor c[N]/tensor d[N]/tensor e[N]/tensor f[N]/tensor g[N]/tensor h[N]/tensor G[N]/tensor j[N]/tensor k[N]/tensor l[N]/tensor m[N]/tensor n[N]/tensor o[N]/tensor p[N]/tensor q[N]/tensor r[N]/tensor s[N]/tensor t[N]/tensor u[N]/tensor v[N]/tensor w[N]/tensor x[N]/tensor y[N]/tensor z[N]/tensor A[N]/tensor B[N]/tensor C[N]/tensor D[N]/tensor E[N]/tensor F[N]/c[i] = a[i] * b[i]/;|15|error 15: 32 tensors/||-c
spill s.tce 11 0|s.tce:range N 2 tile 2/range K 3/index N i j/index K k/tensor A[N]/tensor B[N]/tensor C[N,K]/tensor D[K]/D[k] = sum{i,j}(A[i] * B[j] * C[j,k])/;|5|error 5: budget needs 12/||-D;-spill-0;-spill-1
spill s.tce 6 2|s.tce:range N 2 tile 2/range K 3/index N i j/index K k/tensor A[N]/tensor B[N]/tensor C[N,K]/tensor D[K]/D[k] = sum{i,j}(A[i] * B[j] * C[j,k])/;|3|error 3: no file A.tca/||-D;-spill-0;-spill-1
spill s.tce 100 5|s.tce:range I 5/range J 7/range K 2/index I i/index J j/index K k l/tensor A[I,K]/tensor B[J,K]/tensor C[I,J]/C[i,j] = sum{k}(A[i,k]) * sum{l}(B[j,l])/;A 2 5 2 1 1 1*10|3|error 3: no file B.tca/||-C;-spill-1
spill s.tce 100 5|s.tce:range I 5/range J 7/range K 2/index I i/index J j/index K k l/tensor A[I,K]/tensor B[J,K]/tensor C[I,J]/C[i,j] = sum{k}(A[i,k]) * sum{l}(B[j,l])/;A 2 5 2 1 1 1*10;B 2 7 2 1 1 1*13|4|error 4: B.tca: length 152/||-C;-spill-1
spill s.tce 100 5|s.tce:range I 5/range J 7/range K 2/index I i/index J j/index K k l/tensor A[I,K]/tensor B[J,K]/tensor C[I,J]/C[i,j] = sum{k}(A[i,k]) * sum{l}(B[j,l])/;A 2 5 2 1 1 1*10;B 2 7 2 1 2 1*14|4|error 4: B.tca: head byte 40/||-C;-spill-1
spill s.tce 2 5|s.tce:range I 5/range J 7/range K 2/index I i/index J j/index K k l/tensor A[I,K]/tensor B[J,K]/tensor C[I,J]/C[i,j] = sum{k}(A[i,k]) * sum{l}(B[j,l])/;A 2 5 2 1 1 1*10|5|error 5: budget needs 3/||-C;-spill-1
spill s.tce 100 5|s.tce:range N 2/index N i/tensor A[N]/tensor B[N]/B[i] = A[i] * Z[i]/;|2|error 2: line 5: unknown name Z/||-B
spill t.tce 100 5|s.tce:range I 5/range J 7/range K 2/index I i/index J j/index K k l/tensor A[I,K]/tensor B[J,K]/tensor C[I,J]/C[i,j] = sum{k}(A[i,k]) * sum{l}(B[j,l])/;A 2 5 2 1 1 1*10|3|error 3: no file t.tce/||-C;-spill-1
spill s.tce 100|s.tce:range I 5/range J 7/range K 2/index I i/index J j/index K k l/tensor A[I,K]/tensor B[J,K]/tensor C[I,J]/C[i,j] = sum{k}(A[i,k]) * sum{l}(B[j,l])/;A 2 5 2 1 1 1*10|1|error 1: bad words/||-C;-spill-1
spill s.tce 100 05|s.tce:range I 5/range J 7/range K 2/index I i/index J j/index K k l/tensor A[I,K]/tensor B[J,K]/tensor C[I,J]/C[i,j] = sum{k}(A[i,k]) * sum{l}(B[j,l])/;A 2 5 2 1 1 1*10|1|error 1: bad words/||-C;-spill-1
spill s.tce 100 1099511627777|s.tce:range I 5/range J 7/range K 2/index I i/index J j/index K k l/tensor A[I,K]/tensor B[J,K]/tensor C[I,J]/C[i,j] = sum{k}(A[i,k]) * sum{l}(B[j,l])/;A 2 5 2 1 1 1*10|1|error 1: bad words/||-C;-spill-1
spill s.tce 1099511627777 5|s.tce:range I 5/range J 7/range K 2/index I i/index J j/index K k l/tensor A[I,K]/tensor B[J,K]/tensor C[I,J]/C[i,j] = sum{k}(A[i,k]) * sum{l}(B[j,l])/;A 2 5 2 1 1 1*10|1|error 1: bad words/||-C;-spill-1";

#[test]
fn a_tree_is_refused_for_the_first_cause(rt: HostRuntime) {
    check_rows(&rt, rt.alloc(), LINE, REFUSED);
}

// The array of the first piece is whole where the second has taken its words, and in the place of a file that is not whole is none, or one
// that begins with zeros.
const TWO_PIECES: &str =
    "spill s.tce 100 5|s.tce:range I 5/range J 7/range K 2/index I i/index J j/index K k l/tensor A[I,K]/tensor B[J,K]/tensor C[I,J]/C[i,j] = sum{k}(A[i,k]) * sum{l}(B[j,l])/;A 2 5 2 1 1 1*10;B 2 7 2 1 1 1*14|0|tce spill 1/piece 1 memory 0 tiles 21/piece 2 memory 1 tiles 52/wrote C.tca 328/|0 21,1 52|spill-1 1 7 1 2*7;C 2 5 7 1 1 4*35;-spill-0;-spill-2|?spill-1;-C|?C|spill-1 1 7 1 2*7;?C";

#[test]
fn each_call_of_two_pieces_may_fail(rt: HostRuntime) {
    check_each_call(&rt, rt.alloc(), WITH_ENDS, TWO_PIECES);
}

// The array of the first piece stays.
const WANT: &str =
    "spill s.tce 100 5|s.tce:range I 5/range J 7/range K 2/index I i/index J j/index K k l/tensor A[I,K]/tensor B[J,K]/tensor C[I,J]/C[i,j] = sum{k}(A[i,k]) * sum{l}(B[j,l])/;A 2 5 2 1 1 1*10;B 2 7 2 1 1 1*14|0|tce spill 1/piece 1 memory 0 tiles 21/piece 2 memory 1 tiles 52/wrote C.tca 328/|0 21,1 52|spill-1 1 7 1 2*7;C 2 5 7 1 1 4*35;-spill-0;-spill-2|-spill-1;-C|spill-1 1 7 1 2*7;-C";

#[test]
fn without_memory_no_further_piece_is_run(rt: HostRuntime) {
    check_want(&rt, rt.alloc(), WANT, 0);
    check_want(&rt, rt.alloc(), WANT, 1);
}
