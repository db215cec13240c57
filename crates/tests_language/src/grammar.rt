use crate::given::{expect_text, part, put};
use std::alloc::Global;
use std::process::Abort;
use tce_grammar::{Formula, Line, Printer, Statement, Token, first_line, name_of, read_line};
use tce_space::{Arithmetic, is_name};

fn put_names(rt: &impl Abort, text: &mut Vec<u8>, names: &[&[u8]]) {
    for name in names {
        put(rt, text, b" ");
        put(rt, text, name);
    }
}

fn symbol_of(operator: &Arithmetic) -> &'static [u8] {
    match operator {
        Arithmetic::Multiply => b" times ",
        Arithmetic::Add => b" plus ",
        Arithmetic::Subtract => b" minus ",
    }
}

fn put_formula(rt: &impl Abort, text: &mut Vec<u8>, formula: &Formula) {
    match formula {
        Formula::Tensor { name, indexes } => {
            put(rt, text, name);
            put_names(rt, text, indexes.as_slice());
        }
        Formula::Constant(digits) => put(rt, text, digits),
        Formula::Sum { indexes, operand } => {
            put(rt, text, b"<sum");
            put_names(rt, text, indexes.as_slice());
            put(rt, text, b" : ");
            put_formula(rt, text, operand);
            put(rt, text, b">");
        }
        Formula::Binary {
            operator,
            left,
            right,
        } => {
            put(rt, text, b"<");
            put_formula(rt, text, left);
            put(rt, text, symbol_of(operator));
            put_formula(rt, text, right);
            put(rt, text, b">");
        }
    }
}

fn put_range(rt: &impl Abort, text: &mut Vec<u8>, name: &[u8], extent: &[u8], edge: Option<&[u8]>) {
    put(rt, text, b"range ");
    put(rt, text, name);
    put(rt, text, b" of ");
    put(rt, text, extent);
    if let Some(edge) = edge {
        put(rt, text, b" by ");
        put(rt, text, edge);
    }
}

// A word, a name and more names.
fn put_list(rt: &impl Abort, text: &mut Vec<u8>, word: &[u8], name: &[u8], names: &[&[u8]]) {
    put(rt, text, word);
    put(rt, text, name);
    put_names(rt, text, names);
}

fn put_statement(rt: &impl Abort, text: &mut Vec<u8>, statement: &Statement) {
    match statement {
        Statement::Range { name, extent, edge } => put_range(rt, text, *name, *extent, *edge),
        Statement::Index { range, indexes } => {
            put_list(rt, text, b"indexes of ", *range, indexes.as_slice())
        }
        Statement::Tensor { name, ranges } => {
            put_list(rt, text, b"tensor ", *name, ranges.as_slice())
        }
        Statement::Formula {
            result,
            indexes,
            formula,
        } => {
            put_list(rt, text, b"", *result, indexes.as_slice());
            put(rt, text, b" is ");
            put_formula(rt, text, formula);
        }
    }
}

/// What a line says, in words.
fn told(rt: &impl Abort, alloc: Global, line: &Line) -> Vec<u8> {
    let mut text = Vec::new(alloc);
    match line {
        Line::Skipped => put(rt, &mut text, b"skipped"),
        Line::Bad => put(rt, &mut text, b"bad"),
        Line::Says(statement) => put_statement(rt, &mut text, statement),
    }
    text
}

// What the line says, in words, is as wanted.
fn expect_line(rt: &impl Abort, alloc: Global, text: &[u8], want: &[u8]) {
    match read_line(alloc, text) {
        Ok(line) => expect_text(rt, told(rt, alloc, &line).as_slice(), want, "a line"),
        Err(_) => panic!(rt; "no memory"),
    }
}

// Each row is a line and what it says.
fn expect_rows(rt: &impl Abort, alloc: Global, rows: &str) {
    for row in rows.split('\n') {
        expect_line(rt, alloc, part(row, 0).as_bytes(), part(row, 1).as_bytes());
    }
}

const DECLARATIONS: &str = "\
|skipped
 \t|skipped
 # range N 2|skipped
range N 2|range N of 2
\trange  N\t 2 # two|range N of 2
range N 5 tile 2|range N of 5 by 2
range N 0 tile 007|range N of 0 by 007
range abcdefghijklmno_ 2|range abcdefghijklmno_ of 2
range abcdefghijklmnopq 2|bad
range sum 2|bad
range N 2tile 1|bad
range N 2\r|bad
index N i j i|indexes of N i j i
index N|bad
tensor A[]|tensor A
tensor A [ N , M ] |tensor A N M
tensor A[N,]|bad";

const FORMULAS: &str = "\
C[i,j]=A[i]*B[j]|C i j is <A i times B j>
C[] = 2 - 3 - 4|C is <<2 minus 3> minus 4>
C[] = 2 - 3 * 4 * 5 + 6|C is <<2 minus <<3 times 4> times 5>> plus 6>
C[] = 2 - (3 - 4)|C is <2 minus <3 minus 4>>
C[] = (((A[i])))|C is A i
C[] = sum { k , l } ( A[k] + B[l] )|C is <sum k l : <A k plus B l>>
C[] = sum{k}(2) * 3|C is <<sum k : 2> times 3>
C[] = sum{}(2)|bad
C[] = -2|bad
C[] = 2 - - 3|bad
C[] = 2A[i]|bad
C[] = 2 * (3|bad
C[] = 2 * 3)|bad
C[] =|bad
C[] = 2; # two|bad
C = 2|bad
2[] = 2|bad";

#[test]
fn lines_say_what_was_read_by_hand(rt: HostRuntime) {
    let alloc = rt.alloc();
    expect_rows(&rt, alloc, DECLARATIONS);
    expect_rows(&rt, alloc, FORMULAS);
    // bytes that are no text
    expect_line(&rt, alloc, b"#\x00\xff\r", b"skipped");
    expect_line(&rt, alloc, b"range N \xff", b"bad");
}

fn put_times(rt: &impl Abort, text: &mut Vec<u8>, piece: &[u8], times: u32) {
    for _ in 0..times {
        put(rt, text, piece);
    }
}

// A constant in so many parentheses, with a text behind it, is read as wanted.
fn expect_parentheses(rt: &impl Abort, alloc: Global, count: u32, behind: &[u8], want: &[u8]) {
    let mut text = Vec::new(alloc);
    put(rt, &mut text, b"C[] = ");
    put_times(rt, &mut text, b"(", count);
    put(rt, &mut text, b"2");
    put_times(rt, &mut text, b")", count);
    put(rt, &mut text, behind);
    expect_line(rt, alloc, text.as_slice(), want);
}

#[test]
fn parentheses_are_open_up_to_sixty_four(rt: HostRuntime) {
    let alloc = rt.alloc();
    expect_parentheses(&rt, alloc, 63, b" * ((3))", b"C is <2 times 3>");
    expect_parentheses(&rt, alloc, 64, b"", b"C is 2");
    expect_parentheses(&rt, alloc, 64, b" * ((3))", b"C is <2 times 3>");
    expect_parentheses(&rt, alloc, 65, b"", b"bad");
    expect_parentheses(&rt, alloc, 60_000, b"", b"bad");
}

fn expect_operations(rt: &impl Abort, line: &Line, count: u32) {
    match line {
        Line::Says(Statement::Formula { formula, .. }) => {
            assert!(rt; formula.has_more_operations(count.saturating_sub(1)));
            assert!(rt; !formula.has_more_operations(count));
        }
        _ => panic!(rt; "{count} operators are no formula"),
    }
}

fn expect_chain(rt: &impl Abort, alloc: Global, piece: &[u8], count: u32) {
    let mut text = Vec::new(alloc);
    put(rt, &mut text, b"C[] = 1");
    put_times(rt, &mut text, piece, count);
    match read_line(alloc, text.as_slice()) {
        Ok(line) => expect_operations(rt, &line, count),
        Err(_) => panic!(rt; "no memory"),
    }
}

// A chain of the longest text must not go deep, neither where it is read nor where it is dropped.
#[test]
fn long_chains_are_read_and_dropped(rt: HostRuntime) {
    expect_chain(&rt, rt.alloc(), b" * 2", 1_000);
    expect_chain(&rt, rt.alloc(), b" - 2", 16_000);
}

// The first lines of a text, at most ten, with a bar behind each.
fn cut(rt: &impl Abort, alloc: Global, text: &[u8]) -> Vec<u8> {
    let mut lines = Vec::new(alloc);
    let mut rest = text;
    for _ in 0..10 {
        let Some((first, behind)) = first_line(rest) else {
            break;
        };
        put(rt, &mut lines, first);
        put(rt, &mut lines, b"|");
        rest = behind;
    }
    assert!(rt; first_line(rest).is_none());
    lines
}

// The lines of a text, at most ten, are these, with a bar behind each.
fn expect_cut(rt: &impl Abort, alloc: Global, text: &[u8], want: &[u8]) {
    expect_text(rt, cut(rt, alloc, text).as_slice(), want, "lines");
}

#[test]
fn texts_are_cut_at_line_feeds(rt: HostRuntime) {
    let alloc = rt.alloc();
    expect_cut(&rt, alloc, b"", b"");
    expect_cut(&rt, alloc, b"\n", b"|");
    expect_cut(&rt, alloc, b"a\n\nb", b"a||b|");
    expect_cut(&rt, alloc, b"a\r\nb\r", b"a|b\r|");
    expect_cut(&rt, alloc, b"a\r\r\n\r\n", b"a\r||");
    expect_cut(&rt, alloc, b"a\rb\n", b"a\rb|");
    expect_cut(&rt, alloc, b" \n#\n ", b" |#| |");
}

fn token_of<'a>(word: &'a [u8]) -> Token<'a> {
    match word {
        [] => Token::Word(word),
        [first, ..] => {
            if first.is_ascii_digit() {
                Token::Number(word)
            } else if first.is_ascii_alphabetic() {
                Token::Word(word)
            } else {
                Token::Symbol(*first)
            }
        }
    }
}

fn push(rt: &impl Abort, printer: &mut Printer, word: &str) {
    assert!(rt; printer.push(token_of(word.as_bytes())).is_ok());
}

#[test]
fn tokens_are_printed_with_their_spaces(rt: HostRuntime) {
    let mut printer = Printer::new(rt.alloc());
    for word in "C [ i , j ] = 2 - ( 3 )".split(' ') {
        push(&rt, &mut printer, word);
    }
    assert!(rt; printer.end_line().is_ok());
    push(&rt, &mut printer, "tensor");
    push(&rt, &mut printer, "A");
    let text = printer.into_text();
    expect_text(
        &rt,
        text.as_slice(),
        b"C[i,j] = 2 - (3)\ntensor A",
        "tokens",
    );
}

#[test]
fn names_are_told_from_words(rt: HostRuntime) {
    for word in "a Z_9 sums abcdefghijklmnop".split(' ') {
        assert!(rt; is_name(word.as_bytes()), "{word}");
        assert_eq!(rt; name_of(word.as_bytes()).as_str(), word);
    }
    for word in "abcdefghijklmnopq  _a tile a-b".split(' ') {
        assert!(rt; !is_name(word.as_bytes()), "{word}");
    }
}
