//! Labels, and what a branch names.
ghost use Rattle.std.specs.Prelude.{◌≡◌, ◌<◌, ◌^◌, ◌+◌, ℕ, List, length, MatchOption, MatchResult, Some, None};
ghost use Rattle.std.specs.List.{list_all};
ghost use Rattle.a64_asm.specs.Operand.{is_letter, is_name_byte, is_name, begins_with_letter, distance_of, signed_of, distance_between, target_of, words_in, fits_field, words_to};
ghost use Rattle.std.specs.Option.{option_or};
ghost use Rattle.a64_asm.specs.declared.error.AsmError.TheVariants.{OutOfMemory};
ghost use Rattle.a64_asm.specs.Labels.{looked_up};
ghost use Rattle.a64_asm.specs.Source.{label_of, is_blank, is_word, definition_at, next_of, definitions};

use crate::error::AsmError;
use crate::operand::Distance;
use crate::text::cut_at;
use numerals::number;
use std::alloc::Global;
use std::collections::BTreeMap;

/// Where a label is defined first.
#[derive(Clone, Copy)]
pub struct Definition {
    /// How many lines stand before it.
    pub line: u32,
    /// How many words stand before it.
    pub place: u32,
}

/// The labels of a source, by their names.
pub(crate) type Labels<'a> = BTreeMap<&'a [u8], Definition>;

/// Where a label is defined.
pub(crate) fn look_up(labels: &Labels<'_>, name: &[u8]) -> Option<Definition>
    ensures { result ≡ looked_up labels.now name.now }
{
    labels.get(name).copied()
}

fn is_letter(byte: u8) -> bool
    ensures { result ≡ is_letter byte }
{
    byte.is_ascii_alphabetic()
}

fn is_name_byte(byte: u8) -> bool
    ensures { result ≡ is_name_byte byte }
{
    is_letter(byte) || byte.is_ascii_digit() || byte == b'_'
}

/// Whether a text is the name of a label.
#[tactic(auto, unfolding(crate::specs::Operand::is_name))]
pub(crate) fn is_name(text: &[u8]) -> bool
    ensures { result ≡ is_name text.now }
{
    begins_with_letter(text) && text.len() <= 32 && all_name_bytes(text)
}

fn all_name_bytes(text: &[u8]) -> bool
    ensures { result ≡ list_all is_name_byte text.now }
{
    for byte in text {
        if !is_name_byte(*byte) {
            return false;
        }
    }
    true
}

fn begins_with_letter(text: &[u8]) -> bool
    ensures { result ≡ begins_with_letter text.now }
{
    match text.split_first() {
        None => false,
        Some((first, _)) => is_letter(*first),
    }
}

/// What a branch on the word of this place names: how far it goes, or the rule that the text breaks.
#[tactic(auto, unfolding(crate::specs::Operand::target_of))]
pub(crate) fn target(labels: &Labels<'_>, place: u32, text: &[u8]) -> Result<Distance, u8>
    ensures { result ≡ target_of (looked_up labels.now) place text.now }
{
    if is_name(text) {
        match look_up(labels, text) {
            None => Err(3),
            Some(there) => Ok(between(place, there.place)),
        }
    } else {
        signed(text)
    }
}

/// The distance from one word to another.
fn between(here: u32, there: u32) -> Distance
    ensures { result ≡ distance_between here there }
{
    let (here, there) = (u64::from(here), u64::from(there));
    if there < here {
        Distance {
            back: true,
            bytes: 4 * (here - there),
        }
    } else {
        Distance {
            back: false,
            bytes: 4 * (there - here),
        }
    }
}

/// An offset in bytes, with a sign where it goes back.
fn signed(text: &[u8]) -> Result<Distance, u8>
    ensures { result ≡ signed_of text.now }
{
    match text.split_first() {
        None => Err(1),
        Some((b'-', digits)) => stepped(true, number(digits)),
        Some(_) => stepped(false, number(text)),
    }
}

fn stepped(back: bool, bytes: Option<u64>) -> Result<Distance, u8>
    ensures { result ≡ distance_of back bytes }
{
    match bytes {
        None => Err(1),
        Some(bytes) => Ok(Distance { back, bytes }),
    }
}

/// The offset of a branch in words, where it fits a field of this many bits.
#[tactic(auto, unfolding(crate::specs::Operand::words_to))]
pub(crate) fn words_to(width: u32, target: Result<Distance, u8>) -> Result<u64, u8>
    requires { width < 32 }
    ensures { result ≡ words_to width target }
{
    let distance = target?;
    if fits_field(width, &distance) {
        Ok(words_in(&distance))
    } else {
        Err(2)
    }
}

fn fits_field(width: u32, distance: &Distance) -> bool
    requires { width < 32 }
    ensures { result ≡ fits_field width distance.now }
{
    let limit = 1u64 << (width + 1);
    if distance.bytes % 4 != 0 {
        false
    } else if distance.back {
        distance.bytes <= limit
    } else {
        distance.bytes < limit
    }
}

fn words_in(distance: &Distance) -> u64
    ensures { result ≡ words_in distance.now }
{
    let words = distance.bytes / 4;
    if distance.back && words > 0 {
        u64::MAX - words + 1
    } else {
        words
    }
}

/// The name in a line that is a label.
#[tactic(auto, unfolding(crate::specs::Source::label_of))]
pub(crate) fn label(line: &[u8]) -> Option<&[u8]>
    ensures { MatchOption result (label_of line.now ≡ None) (λ name. label_of line.now ≡ Some name.now) }
{
    match cut_at(line, b':') {
        Some((name, [])) if is_name(name) => Some(name),
        _ => None,
    }
}

/// Whether a line is empty or a comment.
pub(crate) fn is_blank(line: &[u8]) -> bool
    ensures { result ≡ is_blank line.now }
{
    match line.split_first() {
        None => true,
        Some((first, _)) => *first == b';',
    }
}

/// Whether a line counts as a word.
#[tactic(auto, unfolding(crate::specs::Source::is_word))]
fn is_word(line: &[u8]) -> bool
    ensures { result ≡ is_word line.now }
{
    if is_blank(line) {
        return false;
    }
    match label(line) {
        None => true,
        Some(_) => false,
    }
}

impl Definition {
    /// The place after this line.
    pub(crate) fn next(self, line: &[u8]) -> Definition
        requires line { self.line + 1 < 2 ^ 32 }
        requires place { self.place + 1 < 2 ^ 32 }
        ensures { result ≡ next_of self line.now }
    {
        Definition {
            line: self.line + 1,
            place: if is_word(line) {
                self.place + 1
            } else {
                self.place
            },
        }
    }
}

/// Where each label of a source is defined first.
pub(crate) fn collect(alloc: Global, text: &[u8]) -> Result<Labels<'_>, AsmError>
    requires { length text.now < 2 ^ 32 }
    ensures { MatchResult result (λ labels. (name : List ℕ) → looked_up labels name ≡ definitions text.now name)
        (λ error. error ≡ OutOfMemory) }
{
    let mut labels = BTreeMap::new(alloc);
    let mut here = Definition { line: 0, place: 0 };
    let mut rest = text;
    while let Some((line, others)) = cut_at(rest, b'\n') {
        note(&mut labels, here, line)?;
        here = here.next(line);
        rest = others;
    }
    Ok(labels)
}

/// Takes a line's label, unless an earlier line had it.
fn note<'a>(labels: &mut Labels<'a>, here: Definition, line: &'a [u8]) -> Result<(), AsmError>
    ensures { MatchResult result
        (λ done. (name : List ℕ) → looked_up labels.new name
        ≡ option_or (looked_up labels.old name) (definition_at here (label_of line.now) name))
        (λ error. error ≡ OutOfMemory) }
{
    let Some(name) = label(line) else {
        return Ok(());
    };
    if look_up(labels, name).is_some() {
        return Ok(());
    }
    if labels.insert(name, here).is_err() {
        return Err(AsmError::OutOfMemory);
    }
    Ok(())
}
