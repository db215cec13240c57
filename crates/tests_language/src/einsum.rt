//! Einsums and the texts that they produce, worked out by hand.

use crate::given::{numbered, part, put, words_of_limit};
use std::alloc::Global;
use std::process::Abort;
use tce_einsum::{EinsumFault, from_einsum};
use tce_spec::{Spec, SpecFault, print_spec};

// The fault of a produced text in words, with its line.
fn words_of_spec(fault: &SpecFault) -> (&'static str, u64) {
    match fault {
        SpecFault::TooLong => ("too long", 0),
        SpecFault::TooManyNodes(line) => ("many nodes", *line),
        SpecFault::BadNumber(line) => ("number", *line),
        SpecFault::LimitPassed(line, limit) => (words_of_limit(*limit), *line),
        SpecFault::IndexTwice(line, _) => ("index twice", *line),
        SpecFault::Tree(line, _) => ("tree", *line),
        SpecFault::ResultIndices(line) => ("indices", *line),
        _ => ("other", 0),
    }
}

// A refusal in words, with the code of the label, the item or the line.
fn words_of(answer: &Result<Spec, EinsumFault>) -> (&'static str, u64) {
    match answer {
        Ok(_) => ("none", 0),
        Err(EinsumFault::BadText) => ("text", 0),
        Err(EinsumFault::BadSize(label)) => ("size", u64::from(*label)),
        Err(EinsumFault::BadPath(item)) => ("path", *item),
        Err(EinsumFault::Spec(fault)) => words_of_spec(fault),
        Err(EinsumFault::Memory) => ("memory", 0),
    }
}

fn expect_refusal(rt: &impl Abort, alloc: Global, text: &[u8], path: &[u8], wanted: &str) {
    let answer = from_einsum(alloc, text, path);
    let (words, number) = words_of(&answer);
    drop(answer);
    let found = numbered(rt, alloc, words, number);
    assert!(rt; found.as_slice() == wanted.as_bytes(), "{wanted}");
}

// Each row is a text, a path and the refusal.
fn expect_refusals(rt: &impl Abort, alloc: Global, rows: &str) {
    for row in rows.split('\n') {
        let text = part(row, 0).as_bytes();
        expect_refusal(rt, alloc, text, part(row, 1).as_bytes(), part(row, 2));
    }
}

// A piece so many times, and what stands behind it.
fn repeated(rt: &impl Abort, alloc: Global, piece: &[u8], count: u32, behind: &[u8]) -> Vec<u8> {
    let mut text = Vec::new(alloc);
    for _ in 0..count {
        put(rt, &mut text, piece);
    }
    put(rt, &mut text, behind);
    text
}

// The canonical text of what an einsum and its path specify, where they are not refused.
fn text_of(alloc: Global, text: &str, path: &str) -> Option<Vec<u8>> {
    let found = from_einsum(alloc, text.as_bytes(), path.as_bytes());
    let printed = match &found {
        Ok(spec) => print_spec(alloc, spec).ok(),
        Err(_) => None,
    };
    drop(found);
    printed
}

fn expect_text(rt: &impl Abort, alloc: Global, text: &str, path: &str, wanted: &str) {
    let found = text_of(alloc, text, path).expect(rt, "it is not refused");
    assert!(rt; found.as_slice() == wanted.as_bytes());
}

#[test]
fn einsums_produce_the_texts_written_by_hand(rt: HostRuntime) {
    expect_text(
        &rt,
        rt.alloc(),
        "ik,kj->ij@i=2,k=2,j=2",
        "0,1",
        "range N0 2\nindex N0 i k j\ntensor X0[N0,N0]\ntensor X1[N0,N0]\ntensor Y[N0,N0]\nY[i,j] = sum{k}(X0[i,k] * X1[k,j])\n",
    );
    expect_text(
        &rt,
        rt.alloc(),
        "ij,jk,kl->il@j=3/1,k=3,i=5/2,l=3",
        "1,2;0,1",
        "range N0 3\nrange N1 5 tile 2\nindex N0 j k\nindex N1 i\nindex N0 l\ntensor X0[N1,N0]\ntensor X1[N0,N0]\ntensor X2[N0,N0]\ntensor Y[N1,N0]\nY[i,l] = sum{j}(X0[i,j] * sum{k}(X1[j,k] * X2[k,l]))\n",
    );
    expect_text(
        &rt,
        rt.alloc(),
        "i,,i->@i=4",
        "1,2;0,1",
        "range N0 4\nindex N0 i\ntensor X0[N0]\ntensor X1[]\ntensor X2[N0]\ntensor Y[]\nY[] = sum{i}(X0[i] * (X1[] * X2[i]))\n",
    );
    expect_text(
        &rt,
        rt.alloc(),
        "ik,kj->ij@i=2,k=2,j=2/1",
        "0;0,1;0",
        "range N0 2\nindex N0 i k j\ntensor X0[N0,N0]\ntensor X1[N0,N0]\ntensor Y[N0,N0]\nY[i,j] = sum{k}(X1[k,j] * X0[i,k])\n",
    );
}

// A row has a text, a path, and the refusal: a word, and the label, the item or the line.
const TEXTS: &str = "\
|0|text 0
ik,kj->ij|0,1|text 0
ik,kj@i=2,k=2,j=2|0,1|text 0
ik,kj->ij@i=2, k=2,j=2|0,1|text 0
 ik,kj->ij@i=2,k=2,j=2|0,1|text 0
Ik,kj->Ij@I=2,k=2,j=2|0,1|text 0
ik;kj->ij@i=2,k=2,j=2|0,1|text 0
i1->i@i=2|0|text 0
i->i@i=2,|0|text 0
i->i@i=|0|text 0
i->i@i=02|0|text 0
i->i@i=2/|0|text 0
i->i@i=-2|0|text 0
i->i@i=999999999999999999999|0|text 0";

const SIZES: &str = "\
ij->k@i=2,j=2|0|size 107
ij->ij@i=2|0|size 106
ij->ij@i=2,i=2,j=2|0|size 105
ij->ij@i=2,j=2,z=2|0|size 122
ba->@|0|size 97
ij->ij@i=2|9|size 106";

const PATHS: &str = "\
ik,kj->ij@i=2,k=2,j=2||path 0
ik,kj->ij@i=2,k=2,j=2|0,1;|path 1
ik,kj->ij@i=2,k=2,j=2|0,0|path 0
ik,kj->ij@i=2,k=2,j=2|0,2|path 0
ik,kj->ij@i=2,k=2,j=2|2|path 0
ik,kj->ij@i=2,k=2,j=2|0;0|path 2
ik,kj->ij@i=2,k=2,j=2|0,1,2|path 0
ik,kj->ij@i=2,k=2,j=2|0, 1|path 0
ik,kj->ij@i=2,k=2,j=2|00,1|path 0
ik,kj->ij@i=2,k=2,j=2|-1|path 0
ik,kj->ij@i=2,k=2,j=2|0,1;1|path 1
ik,kj->ij@i=2,k=2,j=2|0,1;;0|path 1
ij,jk,kl->il@i=2,j=2,k=2,l=2|0,1|path 1
i->i@i=2||path 0
i->i@i=0|0,0|path 0";

const SPECIFICATIONS: &str = "\
ij->ji@i=2,j=3|0|tree 7
i->@i=0|0|number 1
i->@i=2/3|0|number 1
i->@i=99999999999999999999|0|number 1
abcdefghijklmnopq->@a=1,b=2,c=3,d=4,e=5,f=6,g=7,h=8,i=9,j=10,k=11,l=12,m=13,n=14,o=15,p=16,q=17|0|ranges 17
abcdefghijklmnopqrstuvwxy->@a=1,b=1,c=1,d=1,e=1,f=1,g=1,h=1,i=1,j=1,k=1,l=1,m=1,n=1,o=1,p=1,q=1,r=1,s=1,t=1,u=1,v=1,w=1,x=1,y=1|0|indexes 2
abcdefghi->@a=1,b=1,c=1,d=1,e=1,f=1,g=1,h=1,i=1|0|rank 3
,,,,,,,,,,,,,,,,,,,,,,,,,,,,,,,->@|0,1;0,1;0,1;0,1;0,1;0,1;0,1;0,1;0,1;0,1;0,1;0,1;0,1;0,1;0,1;0,1;0,1;0,1;0,1;0,1;0,1;0,1;0,1;0,1;0,1;0,1;0,1;0,1;0,1;0,1;0,1|tensors 33
a,b,c,,,,,,,,,,,,,,,,,,,,,,,,,,,,->@a=2,b=2,c=2|0;0;0;0,1;0,1;0,1;0,1;0,1;0,1;0,1;0,1;0,1;0,1;0,1;0,1;0,1;0,1;0,1;0,1;0,1;0,1;0,1;0,1;0,1;0,1;0,1;0,1;0,1;0,1;0,1;0,1;0,1;0,1|many nodes 35
i,i->ii@i=2|0,1|index twice 6
i,i->ij@i=2,j=2|0,1|indices 6";

#[test]
fn the_first_fault_of_an_einsum_decides(rt: HostRuntime) {
    expect_refusals(&rt, rt.alloc(), TEXTS);
    expect_refusals(&rt, rt.alloc(), SIZES);
    expect_refusals(&rt, rt.alloc(), PATHS);
    expect_refusals(&rt, rt.alloc(), SPECIFICATIONS);
}

#[test]
fn bytes_that_are_no_text_have_no_form(rt: HostRuntime) {
    expect_refusal(&rt, rt.alloc(), b"\xff->@", b"0", "text 0");
    expect_refusal(&rt, rt.alloc(), b"i->i@i=\xff", b"0", "text 0");
    expect_refusal(&rt, rt.alloc(), b"i,i->i@i=2", b"0,\xff", "path 0");
}

// Two operands and so many more, all without labels, and a path that takes the first two of what is left.
fn expect_too_long(rt: &impl Abort, alloc: Global, more: u32) {
    let text = repeated(rt, alloc, b",", more, b",->@");
    let path = repeated(rt, alloc, b"0,1;", more, b"0,1");
    expect_refusal(rt, alloc, text.as_slice(), path.as_slice(), "too long 0");
}

// More than 5460 operands.
#[test]
fn many_operands_are_too_long(rt: HostRuntime) {
    expect_too_long(&rt, rt.alloc(), 5459);
    expect_too_long(&rt, rt.alloc(), 9998);
}
