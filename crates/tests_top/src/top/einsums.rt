//! Einsums that are written as specifications, run, and refused.

use super::given::{LINE, check_rows};

// Something stands in the place of the specification.
const MATRICES: &str =
    "einsum ik,kj->ij@i=2,k=2,j=2 0,1 mm.tce|!mm.tce:what stood there before/;X0 2 2 2 1 1 1 2 3 4;X1 2 2 2 1 1 5 6 7 8|0|tce einsum 1/nodes 2/wrote mm.tce 111/||mm.tce:range N0 2/index N0 i k j/tensor X0[N0,N0]/tensor X1[N0,N0]/tensor Y[N0,N0]/Y[i,j] = sum{k}(X0[i,k] * X1[k,j])/\nrun mm.tce 3||0|..|..|Y 2 2 2 1 1 19 22 43 50";

#[test]
fn the_specification_of_a_product_of_matrices_is_written_and_run(rt: HostRuntime) {
    check_rows(&rt, rt.alloc(), MATRICES, "");
}

// A row is a text, a path, the files of the operands, and that of the result, which is the same for two paths.
const PATHS: &str = "\
ij,jk,kl->il@i=2,j=3,k=2,l=2|0,1;0,1|X0 2 2 3 1 1 1 2 3 4 5 6;X1 2 3 2 1 1 1 0 2 1 0 3;X2 2 2 2 1 1 1 2 3 4|Y 2 2 2 1 1 38 54 83 120
ij,jk,kl->il@i=2,j=3,k=2,l=2|2,1;1,0|X0 2 2 3 1 1 1 2 3 4 5 6;X1 2 3 2 1 1 1 0 2 1 0 3;X2 2 2 2 1 1 1 2 3 4|Y 2 2 2 1 1 38 54 83 120
ab,ab,ab->@a=2,b=3/2|0,1;0,1|X0 2 2 3 1 2 1 2 3 0 4 5 6 0;X1 2 2 3 1 2 1 1 2 0 2 3 1 0;X2 2 2 3 1 2 3 1 1 0 2 0 5 0|Y 0 57
ab,ab,ab->@a=2,b=3/2|2,1;0;0,1|X0 2 2 3 1 2 1 2 3 0 4 5 6 0;X1 2 2 3 1 2 1 1 2 0 2 3 1 0;X2 2 2 3 1 2 3 1 1 0 2 0 5 0|Y 0 57
i,j,ij->ji@i=2,j=2|0,1;0,1|X0 1 2 1 2 3;X1 1 2 1 5 7;X2 2 2 2 1 1 1 2 3 4|Y 2 2 2 1 1 10 45 28 84
i,j,ij->ji@i=2,j=2|1,2;1,0|X0 1 2 1 2 3;X1 1 2 1 5 7;X2 2 2 2 1 1 1 2 3 4|Y 2 2 2 1 1 10 45 28 84
ab,bc,cd,de->ae@a=1,b=2,c=2,d=2,e=1|0,1;0,1;0,1|X0 2 1 2 1 1 1 2;X1 2 2 2 1 1 1 2 3 4;X2 2 2 2 1 1 1 0 2 1;X3 2 2 1 1 1 1 18446744073709551615|Y 2 1 1 1 1 17
ab,bc,cd,de->ae@a=1,b=2,c=2,d=2,e=1|2,3;0,1;1,0|X0 2 1 2 1 1 1 2;X1 2 2 2 1 1 1 2 3 4;X2 2 2 2 1 1 1 0 2 1;X3 2 2 1 1 1 1 18446744073709551615|Y 2 1 1 1 1 17";

const WRITTEN_AND_RUN: &str = "einsum % % s.tce|%|0|..||\nrun s.tce 100||0|..|..|%";

#[test]
fn values_do_not_depend_on_the_path(rt: HostRuntime) {
    check_rows(&rt, rt.alloc(), WRITTEN_AND_RUN, PATHS);
}

// A row is the text and the path, and what the line says. What stands in the place of the specification stays.
const REFUSAL: &str = "einsum % % mm.tce|mm.tce:what stood there before/|14|error 14: %/||";

const BAD_TEXTS: &str = "\
||bad text
ik,kj->ij@i=2,_k=2,j=2|0,1|bad text
Ik,kj->Ij@I=2,k=2,j=2|0,1|bad text
ik,kj->ijé@i=2,k=2,j=2|0,1|bad text
ik,kj@i=2,k=2,j=2|0,1|bad text
ik,kj->ij|0,1|bad text
...k,kj->...j@k=2,j=2|0,1|bad text
ij->k@i=2,j=2|0|size of k
ik,kj->ij@i=2,k=2,j=2,i=2|0,1|size of i
ik,kj->ij@i=2,k=2,j=2,z=2|0,1|size of z
ik,kj->ij@i=2,j=2|9|size of k";

#[test]
fn texts_of_einsums_are_refused(rt: HostRuntime) {
    check_rows(&rt, rt.alloc(), REFUSAL, BAD_TEXTS);
}

const BAD_PATHS: &str = "\
ik,kj->ij@i=2,k=2,j=2|0,0|path item 0
ik,kj->ij@i=2,k=2,j=2|0,2|path item 0
ik,kj->ij@i=2,k=2,j=2||path item 0
ik,kj->ij@i=2,k=2,j=2|0,1;|path item 1
ik,kj->ij@i=2,k=2,j=2|0,1;0;1|path item 2
ij,jk,kl->il@i=2,j=2,k=2,l=2|0,1|path item 1";

#[test]
fn paths_of_einsums_are_refused(rt: HostRuntime) {
    check_rows(&rt, rt.alloc(), REFUSAL, BAD_PATHS);
}

const BAD_PRODUCED: &str = "\
ij->ji@i=2,j=3|0|line 7: no operation
i,i->i@i=99999999999999999999|0,1|line 1: bad number
i,i->ii@i=2|0,1|line 6: index i twice
i,j->ik@i=2,j=2,k=2|0,1|line 6: result indexes differ
abcdefghi,a->b@a=1,b=1,c=1,d=1,e=1,f=1,g=1,h=1,i=1|0,1|line 3: limit of rank passed
abcdefgh,ijklmnop,q->@a=1,b=2,c=3,d=4,e=5,f=6,g=7,h=8,i=9,j=10,k=11,l=12,m=13,n=14,o=15,p=16,q=17|0,1;0,1|line 17: limit of ranges passed";

#[test]
fn texts_that_einsums_produce_are_refused(rt: HostRuntime) {
    check_rows(&rt, rt.alloc(), REFUSAL, BAD_PRODUCED);
}

const BAD_WORDS: &str = "\
einsum i,i->@i=2 0,1 mm.cert
einsum i,i->@i=2 0,1 m_m.tce
einsum i,i->@i=2 0,1
einsum i,i->@i=2 0,1 mm.tce mm.tce
Einsum i,i->@i=2 0,1 mm.tce";

const BAD: &str = "%|mm.tce:what stood there before/|1|error 1: bad words/||";

#[test]
fn other_words_of_an_einsum_are_bad_words(rt: HostRuntime) {
    check_rows(&rt, rt.alloc(), BAD, BAD_WORDS);
}
