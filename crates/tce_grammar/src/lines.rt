//! The lines of a text.

ghost use Rattle.std.specs.Prelude.{◌≡◌, ◌<◌, ◌≤◌, ◌==◌, List, [], ℕ, length, IfSome};
ghost use Rattle.std.specs.List.{position_or_len};
ghost use Rattle.tce_grammar.specs.Lines.{without_comment, without_return, CutsFirstLine};

const LINE_FEED: u8 = 10;

const CARRIAGE_RETURN: u8 = 13;

/// How many bytes stand before the first of these.
fn len_before(byte: u8, text: &[u8]) -> usize
    ensures value { result ≡ position_or_len (λ b. b == byte) text.now }
    ensures within { result ≤ length text.now }
{
    text.iter().take_while(|b| **b != byte).count()
}

/// A line up to its comment.
#[tactic(auto, unfolding(crate::specs::Lines::without_comment))]
pub(crate) fn without_comment(line: &[u8]) -> &[u8]
    ensures { result.now ≡ without_comment line.now }
{
    &line[..len_before(b'#', line)]
}

/// A line without a carriage return at its end.
fn without_return(line: &[u8]) -> &[u8]
    ensures { result.now ≡ without_return line.now }
{
    if line.is_empty() || line[line.len() - 1] != CARRIAGE_RETURN {
        return line;
    }
    &line[..line.len() - 1]
}

/// The first line of a text, without its line feed and a carriage return before that, and the text behind the line.
/// A text with no bytes has no line; what stands behind the last line feed is one more line unless it is empty.
pub fn first_line(text: &[u8]) -> Option<(&[u8], &[u8])>
    ensures first { CutsFirstLine text.now result }
    ensures shorter { IfSome result (λ r. length r.1.now < length text.now) }
{
    if text.is_empty() {
        return None;
    }
    let len = len_before(LINE_FEED, text);
    if len == text.len() {
        return Some((text, &[]));
    }
    Some((without_return(&text[..len]), &text[len + 1..]))
}
