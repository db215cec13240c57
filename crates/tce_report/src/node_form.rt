// A node line as it is written, whatever tree it is about.
ghost use Rattle.std.specs.Prelude.{◌≡◌, option_map};
ghost use Rattle.std.specs.Str.{bytes_eq};
ghost use Rattle.tce_fields.specs.Reading.{GivesExactly, texts};
ghost use Rattle.tce_report.specs.Fields.{HasArrayFields, HasFormFields};
ghost use Rattle.tce_report.specs.FormCode.{array_form, form};
ghost use Rattle.tce_report.specs.NodeForm.{IsFormOf};
ghost use Rattle.tce_report.specs.NodeLine as lines;

use arrayvec::ArrayVec;
use tce_fields::{read_names, read_number, split_parts};
use tce_space::{MAX_INDEXES, MAX_LOOPS};
use tce_tree::Kind;

const NODE: &[u8] = b"node";

const LOOPS: &[u8] = b"loops";

const FUSED: &[u8] = b"fused";

const SIZE: &[u8] = b"size";

const RESULT: &[u8] = b"result";

const PRODUCT: &[u8] = b"product";

const SUM: &[u8] = b"sum";

const ADD: &[u8] = b"add";

const SUB: &[u8] = b"sub";

// What a line says of the array of an intermediate: the names of the fused indexes and the size, in elements.
#[derive(Drop)]
pub(crate) struct WrittenArray<'a> {
    pub(crate) fused: ArrayVec<&'a [u8], MAX_INDEXES>,
    pub(crate) size: u128,
}

// The number of a node, what it computes, the names of its loops, and its array, unless it is the result.
#[derive(Drop)]
pub(crate) struct WrittenLine<'a> {
    pub(crate) node: u128,
    pub(crate) kind: Kind,
    pub(crate) order: ArrayVec<&'a [u8], MAX_LOOPS>,
    pub(crate) array: Option<WrittenArray<'a>>,
}

fn is_word(field: &[u8], word: &[u8]) -> bool
    ensures { result ≡ bytes_eq field.now word.now }
{
    field == word
}

fn read_kind(word: &[u8]) -> Option<Kind>
    ensures { GivesExactly result (λ kind. word.now ≡ lines.kind_word kind) }
{
    if is_word(word, PRODUCT) {
        Some(Kind::Product)
    } else if is_word(word, SUM) {
        Some(Kind::Sum)
    } else if is_word(word, ADD) {
        Some(Kind::Add)
    } else if is_word(word, SUB) {
        Some(Kind::Sub)
    } else {
        None
    }
}

// What stands behind the loops.
fn read_array<'a>(fields: &[&'a [u8]]) -> Option<Option<WrittenArray<'a>>>
    ensures { GivesExactly (option_map array_form result) (HasArrayFields (texts fields.now)) }
{
    match fields {
        [result_word] if is_word(*result_word, RESULT) => Some(None),
        [fused_word, names, size_word, number]
            if is_word(*fused_word, FUSED) && is_word(*size_word, SIZE) => {
            let Some(fused) = read_names(*names) else {
                return None;
            };
            let Some(size) = read_number(*number) else {
                return None;
            };
            Some(Some(WrittenArray { fused, size }))
        }
        _ => None,
    }
}

fn read_fields<'a>(fields: &[&'a [u8]]) -> Option<WrittenLine<'a>>
    ensures { GivesExactly (option_map form result) (HasFormFields (texts fields.now)) }
{
    let [node_word, number, kind_word, loops_word, names, rest @ ..] = fields else {
        return None;
    };
    if !is_word(*node_word, NODE) || !is_word(*loops_word, LOOPS) {
        return None;
    }
    let Some(node) = read_number(*number) else {
        return None;
    };
    let Some(kind) = read_kind(*kind_word) else {
        return None;
    };
    let Some(order) = read_names(*names) else {
        return None;
    };
    let Some(array) = read_array(rest) else {
        return None;
    };
    Some(WrittenLine {
        node,
        kind,
        order,
        array,
    })
}

// The line as it is written; `None` where it has neither of the two forms of a node line.
pub(crate) fn read_form(line: &[u8]) -> Option<WrittenLine<'_>>
    ensures { GivesExactly (option_map form result) (IsFormOf line.now) }
{
    let Some(fields) = split_parts::<9>(line, b' ') else {
        return None;
    };
    read_fields(fields.as_slice())
}
