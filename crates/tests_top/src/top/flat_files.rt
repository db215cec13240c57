//! Arrays from flat files, flat files from arrays, and arrays in other forms.

use super::given::check_rows;

// The last byte of the short file is cut off.
const COMMANDS: &str = "\
pack s.tce A a.flat|s.tce:range N 5 tile 2/index N i/tensor A[N]/tensor C[N]/C[i] = A[i] * A[i]/;=a.flat 1 2 3 4 5;=short.flat 1 2 3 4 .5 .0*6|0|tce pack 1/wrote A.tca 80/||A 1 5 2 1 2 3 4 5 0
unpack s.tce A b.flat||0|tce unpack 1/wrote b.flat 40/||=b.flat 1 2 3 4 5
convert s.tce A 4||0|tce convert 1/wrote A.v2.tca 64/||+A.v2 1 4 5 2 ~1 ~2 ~3 ~4 ~5 ~0
pack s.tce A short.flat||11|error 11: flat length 39/||
pack s.tce A c.flat||3|error 3: no file c.flat/||
pack s.tce Z a.flat||12|error 12: no tensor Z/||
unpack s.tce C b.flat||3|error 3: no file C.tca/||=a.flat 1 2 3 4 5;=b.flat 1 2 3 4 5;A 1 5 2 1 2 3 4 5 0;+A.v2 1 4 5 2 ~1 ~2 ~3 ~4 ~5 ~0";

#[test]
fn flat_files_go_in_and_out(rt: HostRuntime) {
    check_rows(&rt, rt.alloc(), COMMANDS, "");
}

// The elements -1 and 5, in eight bytes each, in four, and in four behind a head that says another width.
const CONVERTED: &str = "\
convert s.tce A 4|s.tce:range N 2/index N i j/tensor A[N]/tensor B[N]/tensor C[N,N]/C[i,j] = A[i] * B[j]/;!A 1 2 1 18446744073709551615 5;B 1 2 1 3 4|0|tce convert 1/wrote A.v2.tca 48/||+A.v2 1 4 2 1 ~4294967295 ~5
run s.tce 3|!+A 1 4 2 1 ~4294967295 ~5|0|tce run 1/node 0 product loops i,j result/memory 0/tiles 3/wrote C.tca 80/|0 3|C 2 2 2 1 1 18446744073709551613 18446744073709551612 15 20
run s.tce 3|+A 1 5 2 1 ~4294967295 ~5|4|error 4: A.tca: length 48/||C 2 2 2 1 1 18446744073709551613 18446744073709551612 15 20
convert s.tce A 8||4|error 4: A.tca: length 48/||C 2 2 2 1 1 18446744073709551613 18446744073709551612 15 20";

#[test]
fn converted_arrays_are_run(rt: HostRuntime) {
    check_rows(&rt, rt.alloc(), CONVERTED, "");
}

const TOO_LARGE: &str =
    "convert s.tce A 4|s.tce:range N 2/index N i j/tensor A[N]/tensor B[N]/tensor C[N,N]/C[i,j] = A[i] * B[j]/;A 1 2 1 9223372036854775808 18446744073709551615|13|error 13: element 0 does not fit/||-A.v2";

#[test]
fn elements_that_do_not_fit_are_refused(rt: HostRuntime) {
    check_rows(&rt, rt.alloc(), TOO_LARGE, "");
}
