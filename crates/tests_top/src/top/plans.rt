//! Plans.

use super::given::check_rows;

// A row is a specification and the report, or its end where several plans are least.
const PLAN: &str = "plan s.tce|s.tce:%|0|%||";

const PLANS: &str = "\
range I 5/range J 7/range K 2/index I i/index J j/index K k l/tensor A[I,K]/tensor B[J,K]/tensor C[I,J]/C[i,j] = (sum{k}(A[i,k])) * (sum{l}(B[j,l]))/|tce plan 1/node 0 sum loops i,k fused - size 5/node 1 sum loops j,l fused j size 1/node 2 product loops j,i result/memory 6/
range V 40 tile 8/range O 10 tile 5/index V a b c d e f/index O i j k l/tensor A[V,V,O,O]/tensor B[V,V,V,O]/tensor C[V,V,O,O]/tensor D[V,V,V,O]/tensor S[V,V,O,O]/S[a,b,i,j] = sum{c,k}(sum{d,f}(sum{e,l}(B[b,e,f,l] * D[c,d,e,l]) * C[d,f,j,k]) * A[a,c,i,k])/|tce plan 1/node 0 product loops b,c,d,f,e,l fused b,c,d,e,f,l size 1/node 1 sum loops b,c,d,f,e,l fused b,c,d,f size 1/node 2 product loops b,c,d,f,j,k fused b,c,d,f,j,k size 1/node 3 sum loops b,c,d,f,j,k fused b,c size 100/node 4 product loops b,c,a,i,j,k fused a,b,c,i,j,k size 1/node 5 sum loops b,c,a,i,j,k result/memory 104/
range V 3000/range O 100/index V a b c d e f/index O i j k l/tensor A[V,V,O,O]/tensor B[V,V,V,O]/tensor C[V,V,O,O]/tensor D[V,V,V,O]/tensor S[V,V,O,O]/S[a,b,i,j] = sum{c,k}(sum{d,f}(sum{e,l}(B[b,e,f,l] * D[c,d,e,l]) * C[d,f,j,k]) * A[a,c,i,k])/|tce plan 1/node 0 product loops b,c,d,f,e,l fused b,c,d,e,f,l size 1/node 1 sum loops b,c,d,f,e,l fused b,c,d,f size 1/node 2 product loops b,c,d,f,j,k fused b,c,d,f,j,k size 1/node 3 sum loops b,c,d,f,j,k fused b,c size 10000/node 4 product loops b,c,a,i,j,k fused a,b,c,i,j,k size 1/node 5 sum loops b,c,a,i,j,k result/memory 10004/
range N 2/index N i j k/tensor A[N,N]/tensor B[N,N]/tensor C[N,N]/C[i,j] = sum{k}(A[i,k] * B[k,j])/|tce plan 1/node 0 product loops i,j,k fused i,j,k size 1/node 1 sum loops i,j,k result/memory 1/
range N 2/index N i j/tensor A[N,N]/tensor B[N,N]/tensor C[N]/C[j] = sum{i}(A[i,j]) * sum{i}(B[i,j])/|tce plan 1/node 0 sum loops j,i fused j size 1/node 1 sum loops j,i fused j size 1/node 2 product loops j result/memory 2/
range N 2/index N i/tensor A[N]/tensor B[N]/tensor C[N]/C[i] = 2 * A[i] - B[i] + 1/|tce plan 1/node 0 product loops i fused i size 1/node 1 sub loops i fused i size 1/node 2 add loops i result/memory 2/
range N 2/index N i j/tensor A[N]/tensor B[N]/tensor C[N,N]/C[i,j] = A[i] + B[j]/|tce plan 1/node 0 add loops i,j result/memory 0/
tensor C[]/C[] = 2 + 3/|tce plan 1/node 0 add loops - result/memory 0/";

#[test]
fn plans_are_least_and_reported(rt: HostRuntime) {
    check_rows(&rt, rt.alloc(), PLAN, PLANS);
}

const ENDS: &str = "\
range V 1/range O 1/index V a b c d e f/index O i j k l/tensor A[V,V,O,O]/tensor B[V,V,V,O]/tensor C[V,V,O,O]/tensor D[V,V,V,O]/tensor S[V,V,V,O,O,O]/S[a,b,c,i,j,k] = sum{d,f}(sum{e,l}(B[b,e,f,l] * D[c,d,e,l]) * C[d,f,j,k]) * A[a,c,i,k]/|../memory 4/
range N 2097152/range K 1/index N a b c d/index K k/tensor A[N,N,K]/tensor B[N,N,K]/tensor S[N,N]/S[c,d] = sum{a,b}(sum{k}(A[a,b,k]) * sum{k}(B[c,d,k]))/|../memory 4398046511106/";

#[test]
fn each_least_plan_has_this_memory(rt: HostRuntime) {
    check_rows(&rt, rt.alloc(), PLAN, ENDS);
}
