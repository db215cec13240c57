//! Texts that were written by hand, read, printed and read again.

use std::alloc::Global;
use tce_spec::{SpecFault, print_spec, read_back, read_spec};

/// The canonical text of what came back from the canonical text of what a text specifies.
fn printed_twice(alloc: Global, text: &[u8]) -> Result<Vec<u8>, SpecFault> {
    let spec = read_spec(alloc, text)?;
    let read = read_back(alloc, &spec);
    drop(spec);
    let back = read?;
    let printed = print_spec(alloc, &back);
    drop(back);
    Ok(printed?)
}

#[test]
fn specifications_come_back(rt: HostRuntime) {
    let text: &[u8] =
        b"range I 5 # rows\nrange J 7 tile 1\nrange K 2 tile 2\nindex K k\nindex K l\nindex I i\nindex J j\ntensor A[I,K]\ntensor B[J,K]\ntensor C[I,J]\nC[i,j]=((sum{k}(A[i,k]))*(sum{l}(B[j,l]))) - 10";
    let canonical: &[u8] =
        b"range I 5\nrange J 7\nrange K 2 tile 2\nindex K k l\nindex I i\nindex J j\ntensor A[I,K]\ntensor B[J,K]\ntensor C[I,J]\nC[i,j] = sum{k}(A[i,k]) * sum{l}(B[j,l]) - 10\n";
    match printed_twice(rt.alloc(), text) {
        Ok(printed) => assert!(rt; printed.as_slice() == canonical),
        Err(_) => panic!(rt; "the text is refused"),
    }
}
