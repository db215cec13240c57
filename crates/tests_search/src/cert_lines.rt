//! Lines with and without a form.

use std::process::Abort;
use tce_cert::{has_form, read_memory_line, read_table_line};

// Whether each of the lines, one below the other, has a form.
fn expect_form(rt: &impl Abort, lines: &str, wanted: bool) {
    for line in lines.split('\n') {
        assert!(rt; has_form(line.as_bytes()) == wanted, "{line}");
    }
}

const WITH_FORM: &str =
    "tce certificate 1\nmemory 79228162514264337593543950335\ntable 40 0\nrow 5 -\nrow 1 i,i/z\nend";

// The last of them is no line at all.
const WITHOUT_FORM: &str =
    "tce certificate 2\nmemory 79228162514264337593543950336\nmemory 06\ntable 0 2 \nrow 1 -/i\nrow 1 i,sum\nrow -\nend \n";

#[test]
fn lines_have_their_forms(rt: HostRuntime) {
    expect_form(&rt, WITH_FORM, true);
    expect_form(&rt, WITHOUT_FORM, false);
}

#[test]
fn numbers_are_read(rt: HostRuntime) {
    assert!(rt; read_memory_line(b"memory 6") == Some(6));
    assert!(rt; read_table_line(b"table 1 2") == Some((1, 2)));
}
