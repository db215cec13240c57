// Rows of a body: the turns of its last loop, over windows that begin where the row does.
ghost use Rattle.std.specs.Prelude.{◌≡◌, ◌+◌, ◌*◌, ◌<◌, ◌≤◌, ◌^◌, ℕ, [], ◌∷◌, length, map, slice_index, All, IsTrue};
ghost use Rattle.tce_space.specs.Limits.{max_indexes};
ghost use Rattle.tce_exec.specs.ChainRows.{after_row, after_turn, IsFlat, link_along, link_before, source_along, source_before, window_along, window_before, IsLinkAlong, IsLinkFar, IsSourceFar};
ghost use Rattle.tce_exec.specs.Links.{word_along, IsAlongWithin};

use crate::links::{Link, Source};
use crate::operation::combine;
use crate::window::Window;
use tce_tree::Kind;
use tce_words::Words;

/// An index, and how far its number is from where windows begin.
#[derive(Clone, Copy)]
pub(crate) struct Step {
    pub index: usize,
    pub by: u64,
}

// The place of a window's word, so far behind its first one.
#[inline]
fn place_along(window: &Window, step: Step) -> u64
    requires small { step.index < max_indexes }
    requires limit { window.now.first + step.by * slice_index window.now.steps step.index < 2 ^ 64 }
    ensures { result ≡ window.now.first + step.by * slice_index window.now.steps step.index }
{
    window.first + step.by * window.steps[step.index]
}

// The word of a source, so far behind its first one.
#[inline]
fn read_source(words: &Words, source: &Source, step: Step) -> u64
    requires small { step.index < max_indexes }
    requires within { IsAlongWithin (length words.now) step.index step.by source.now }
    ensures { result ≡ word_along words.now step.index step.by source.now }
{
    match source {
        Source::Number(number) => *number,
        Source::Words(window) => {
            // The length of the block bounds all places.
            let _len = words.len();
            let at = place_along(window, step);
            words.get(at)
        }
    }
}

// Does the operations of links at one turn of a row.
#[inline]
fn run_turn(words: &mut Words, links: &[Link], step: Step)
    requires small { step.index < max_indexes }
    requires within { All (IsLinkAlong (length words.old) step.index step.by) links.now }
    ensures { words.new ≡ after_turn links.now step.index step.by words.old }
{
    for link in links {
        // All words are below 2^64.
        let _len = words.len();
        let left = read_source(words, &link.left, step);
        let right = read_source(words, &link.right, step);
        let at = place_along(&link.out, step);
        words.put(at, combine(link.kind, left, right));
    }
}

// Whether the words of two windows along a row follow one another, and those of one stand before or behind all of the other.
fn is_flat(out: &Window, window: &Window, index: usize, count: u64) -> bool
    requires small { index < max_indexes }
    requires some { 0 < count }
    requires out { (by : ℕ) → by < count → out.now.first + by * slice_index out.now.steps index < 2 ^ 60 }
    requires within { (by : ℕ) → by < count → window.now.first + by * slice_index window.now.steps index < 2 ^ 60 }
    ensures { IsTrue result → IsFlat index count out.now window.now }
{
    if out.steps[index] != 1 || window.steps[index] != 1 {
        return false;
    }
    window.first + count <= out.first || out.first + count <= window.first
}

// Does the operation of a link at the turns of a row, of a number and of words, where all words follow one another.
fn run_flat_first(
    words: &mut Words,
    link: &Link,
    number: u64,
    window: &Window,
    _index: usize,
    count: u64,
)
    requires left { link.now.left ≡ Source.Number number }
    requires right { link.now.right ≡ Source.Words window.now }
    requires flat { IsFlat _index count link.now.out window.now }
    requires within { (by : ℕ) → by < count → IsLinkAlong (length words.old) _index by link.now }
    ensures { words.new ≡ after_row (link.now ∷ []) _index count words.old }
{
    let (out, from) = (link.out.first, window.first);
    match link.kind {
        Kind::Product => words.mul_number(out, number, from, count),
        Kind::Sum => words.plus_number(out, number, from, count),
        Kind::Add => words.plus_number(out, number, from, count),
        Kind::Sub => words.number_minus(out, number, from, count),
    }
}

// The same of words, and of a number.
fn run_flat_second(
    words: &mut Words,
    link: &Link,
    window: &Window,
    number: u64,
    _index: usize,
    count: u64,
)
    requires left { link.now.left ≡ Source.Words window.now }
    requires right { link.now.right ≡ Source.Number number }
    requires flat { IsFlat _index count link.now.out window.now }
    requires within { (by : ℕ) → by < count → IsLinkAlong (length words.old) _index by link.now }
    ensures { words.new ≡ after_row (link.now ∷ []) _index count words.old }
{
    let (out, from) = (link.out.first, window.first);
    match link.kind {
        Kind::Product => words.mul_number(out, number, from, count),
        Kind::Sum => words.plus_number(out, number, from, count),
        Kind::Add => words.plus_number(out, number, from, count),
        Kind::Sub => words.minus_number(out, from, number, count),
    }
}

// Does the operation of a link at the turns of a row: of a number, and of words.
fn run_number_first(
    words: &mut Words,
    link: &Link,
    number: u64,
    window: &Window,
    index: usize,
    count: u64,
)
    requires small { index < max_indexes }
    requires left { link.now.left ≡ Source.Number number }
    requires right { link.now.right ≡ Source.Words window.now }
    requires within { (by : ℕ) → by < count → IsLinkAlong (length words.old) index by link.now }
    ensures { words.new ≡ after_row (link.now ∷ []) index count words.old }
{
    // The length of the block bounds all places.
    let _len = words.len();
    if count > 0 && is_flat(&link.out, window, index, count) {
        return run_flat_first(words, link, number, window, index, count);
    }
    // What stays from turn to turn.
    let kind = link.kind;
    let (from, step) = (window.first, window.steps[index]);
    let (at, out_step) = (link.out.first, link.out.steps[index]);
    for by in 0..count {
        // The length of the block bounds all places.
        let _len = words.len();
        let word = words.get(from + by * step);
        words.put(at + by * out_step, combine(kind, number, word));
    }
}

// The same of words, and of a number.
fn run_number_second(
    words: &mut Words,
    link: &Link,
    window: &Window,
    number: u64,
    index: usize,
    count: u64,
)
    requires small { index < max_indexes }
    requires left { link.now.left ≡ Source.Words window.now }
    requires right { link.now.right ≡ Source.Number number }
    requires within { (by : ℕ) → by < count → IsLinkAlong (length words.old) index by link.now }
    ensures { words.new ≡ after_row (link.now ∷ []) index count words.old }
{
    // The length of the block bounds all places.
    let _len = words.len();
    if count > 0 && is_flat(&link.out, window, index, count) {
        return run_flat_second(words, link, window, number, index, count);
    }
    // What stays from turn to turn.
    let kind = link.kind;
    let (from, step) = (window.first, window.steps[index]);
    let (at, out_step) = (link.out.first, link.out.steps[index]);
    for by in 0..count {
        // The length of the block bounds all places.
        let _len = words.len();
        let word = words.get(from + by * step);
        words.put(at + by * out_step, combine(kind, word, number));
    }
}

// Does the operations of links at the turns of a row, one turn after the other.
fn run_turns(words: &mut Words, links: &[Link], index: usize, count: u64)
    requires small { index < max_indexes }
    requires within { (by : ℕ) → by < count → All (IsLinkAlong (length words.old) index by) links.now }
    ensures { words.new ≡ after_row links.now index count words.old }
{
    for by in 0..count {
        run_turn(words, links, Step { index, by });
    }
}

/// Does the operations of links at the turns of a row. An operation that is alone and reads a number runs in a loop of its own.
pub(crate) fn run_row(words: &mut Words, links: &[Link], index: usize, count: u64)
    requires small { index < max_indexes }
    requires within { (by : ℕ) → by < count → All (IsLinkAlong (length words.old) index by) links.now }
    ensures { words.new ≡ after_row links.now index count words.old }
{
    if links.len() != 1 {
        return run_turns(words, links, index, count);
    }
    let link = &links[0];
    match &link.left {
        Source::Number(number) => match &link.right {
            Source::Words(window) => run_number_first(words, link, *number, window, index, count),
            Source::Number(_) => run_turns(words, links, index, count),
        },
        Source::Words(window) => match &link.right {
            Source::Number(number) => run_number_second(words, link, window, *number, index, count),
            Source::Words(_) => run_turns(words, links, index, count),
        },
    }
}

// Lets a window begin where an index is further.
#[inline]
fn advance_window(window: &mut Window, step: Step)
    requires small { step.index < max_indexes }
    requires limit { window.old.first + step.by * slice_index window.old.steps step.index < 2 ^ 64 }
    ensures { window.new ≡ window_along step.index step.by window.old }
{
    window.first = place_along(window, step);
}

#[inline]
fn advance_source(source: &mut Source, step: Step)
    requires small { step.index < max_indexes }
    requires limit { IsAlongWithin (2 ^ 64) step.index step.by source.old }
    ensures { source.new ≡ source_along step.index step.by source.old }
{
    if let Source::Words(window) = source {
        advance_window(window, step);
    }
}

/// Lets all windows of links begin where an index is further.
pub(crate) fn advance(links: &mut [Link], step: Step)
    requires small { step.index < max_indexes }
    requires limit { All (IsLinkAlong (2 ^ 64) step.index step.by) links.old }
    ensures { links.new ≡ map (link_along step.index step.by) links.old }
{
    for k in 0..links.len() {
        let link = &mut links[k];
        advance_source(&mut link.left, step);
        advance_source(&mut link.right, step);
        advance_window(&mut link.out, step);
    }
}

// Lets a window begin where an index is less far.
#[inline]
fn withdraw_window(window: &mut Window, step: Step)
    requires small { step.index < max_indexes }
    requires far { step.by * slice_index window.old.steps step.index ≤ window.old.first }
    ensures { window.new ≡ window_before step.index step.by window.old }
{
    window.first -= step.by * window.steps[step.index];
}

#[inline]
fn withdraw_source(source: &mut Source, step: Step)
    requires small { step.index < max_indexes }
    requires far { IsSourceFar step.index step.by source.old }
    ensures { source.new ≡ source_before step.index step.by source.old }
{
    if let Source::Words(window) = source {
        withdraw_window(window, step);
    }
}

/// Lets all windows of links begin where an index is less far.
pub(crate) fn withdraw(links: &mut [Link], step: Step)
    requires small { step.index < max_indexes }
    requires far { All (IsLinkFar step.index step.by) links.old }
    ensures { links.new ≡ map (link_before step.index step.by) links.old }
{
    for k in 0..links.len() {
        let link = &mut links[k];
        withdraw_source(&mut link.left, step);
        withdraw_source(&mut link.right, step);
        withdraw_window(&mut link.out, step);
    }
}
