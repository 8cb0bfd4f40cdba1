//! What a line says.
ghost use Rattle.std.specs.Prelude.{◌≡◌, ◌∷◌, IfSome, MatchOption};
ghost use Rattle.text_lines.specs.Cut.{IsWhole};
ghost use Rattle.schedule.specs.Parts.{parts};
ghost use Rattle.schedule.specs.Number.{BeginsWithNumber};
ghost use Rattle.schedule.specs.Line.{line_of, parts_of, entry_in, entry_of, BeginsWithLine};

use crate::number::number;
use text_lines::cut_at;

/// What a line says, before it is judged by a configuration.
#[derive(Clone, Copy)]
pub enum Line {
    /// It is empty, or a comment.
    NoEvent,
    /// A step of this core, at this count.
    Step { core: u64, count: u64 },
    /// A byte for this port.
    Input { port: u64, byte: u8 },
    /// It is none of these.
    BadForm,
}

/// Reads a line, which is given without its end.
#[tactic(auto, unfolding(crate::specs::Line::line_of))]
pub(crate) fn read_line(text: &[u8]) -> Line
    ensures { result ≡ line_of text.now }
{
    match text {
        [] | [b'#', ..] => Line::NoEvent,
        _ => read_parts(text),
    }
}

/// Reads a line that is neither empty nor a comment.
#[tactic(auto, using(crate::proofs::Lines::one_part, crate::proofs::Lines::more_parts))]
fn read_parts(text: &[u8]) -> Line
    ensures { result ≡ parts_of text.now }
{
    let Some((kind, behind)) = cut_at(text, b' ') else {
        return Line::BadForm;
    };
    read_numbers(kind, behind)
}

/// Reads what stands after the first blank.
#[tactic(auto, using(crate::proofs::Lines::two_parts, crate::proofs::Lines::three_parts))]
fn read_numbers(kind: &[u8], behind: &[u8]) -> Line
    ensures { result ≡ entry_in (kind.now ∷ parts 32 behind.now) }
{
    let Some((first, second)) = cut_at(behind, b' ') else {
        return Line::BadForm;
    };
    entry(kind, number(first), number(second))
}

/// The entry of this kind with these two numbers.
fn entry(kind: &[u8], first: Option<u64>, second: Option<u64>) -> Line
    ensures { result ≡ entry_of kind.now first second }
{
    let (Some(first), Some(second)) = (first, second) else {
        return Line::BadForm;
    };
    match (kind, u8::try_from(second)) {
        ([b's'], _) => Line::Step {
            core: first,
            count: second,
        },
        ([b'i'], Ok(byte)) => Line::Input { port: first, byte },
        _ => Line::BadForm,
    }
}

/// What the first line of a text says, and what stands after that line, where there is one.
#[inline(always)]
pub(crate) fn next_line(text: &[u8]) -> Option<(Line, &[u8])>
    ensures { MatchOption result (IsWhole 10 text.now) (λ next. BeginsWithLine text.now next.0 next.1.now) }
{
    if let Some(step) = step_at_start(text) {
        return Some(step);
    }
    let (line, behind) = cut_at(text, b'\n')?;
    Some((read_line(line), behind))
}

/// The step that the first line of a text says, and what stands after that line, where the text begins with one. Most
/// lines are steps, and this reads one in a single pass.
#[inline(always)]
fn step_at_start(text: &[u8]) -> Option<(Line, &[u8])>
    ensures { IfSome result (λ step. BeginsWithLine text.now step.0 step.1.now) }
{
    let [b's', b' ', rest @ ..] = text else {
        return None;
    };
    let (core, rest) = leading_number(rest)?;
    let [b' ', rest @ ..] = rest else {
        return None;
    };
    let (count, rest) = leading_number(rest)?;
    let [b'\n', rest @ ..] = rest else {
        return None;
    };
    Some((Line::Step { core, count }, rest))
}

/// The number that a text begins with, and what stands after it.
#[inline(always)]
fn leading_number(text: &[u8]) -> Option<(u64, &[u8])>
    ensures { IfSome result (λ number. BeginsWithNumber text.now number.0 number.1.now) }
{
    let [first, behind @ ..] = text else {
        return None;
    };
    if !first.is_ascii_digit() {
        return None;
    }
    let mut n = u64::from(*first - b'0');
    let mut rest = behind;
    if n == 0 {
        return Some((0, rest));
    }
    while let [b, behind @ ..] = rest {
        if !b.is_ascii_digit() {
            break;
        }
        n = n.checked_mul(10)?.checked_add(u64::from(*b - b'0'))?;
        rest = behind;
    }
    Some((n, rest))
}
