//! The assembler: from the lines of a source to its image.
ghost use Rattle.std.specs.Prelude.{◌≡◌, ◌+◌, ◌<◌, ◌^◌, ◌++◌, length, if◌then◌else◌, OnOk, MatchResult};
ghost use Rattle.a64_asm.specs.Labels.{looked_up};
ghost use Rattle.a64_asm.specs.Reading.{said_of};
ghost use Rattle.bao_types.specs.Bytes.{low_bytes};
ghost use Rattle.a64_asm.specs.Source.{judged, within_limit, is_repeated, word_said, assembled, Image, IsSayable, TellsBroken};
ghost use Rattle.a64_asm.specs.Progress.{TakesLine, IsRefused};

use crate::error::AsmError;
use crate::label::{Definition, Labels, collect, is_blank, label, look_up};
use crate::reading::read_said;
use crate::said::Said;
use crate::text::cut_at;
use a64_encode::encode;
use std::alloc::{AllocError, Global};

/// The most bytes of an image: a mebibyte.
pub const IMAGE_LIMIT: u32 = 1_048_576;

/// How far a source has been read.
#[derive(Drop)]
pub struct Progress {
    /// The bytes so far.
    pub image: Vec<u8>,
    /// The next line, and how many words stand before it.
    pub here: Definition,
}

/// Assembles a source: lines that are each ended by LF.
///
/// A line is empty, a comment (`;` and any bytes), a label (`NAME:`), or one word in one of the forms that `list` writes,
/// where a branch may name a label. The rules, tried in this order on each line: 1 the form, an end without LF included; 2 a
/// number that the form doesn't admit, or a label too far away; 3 a label that no line defines; 4 a label that an earlier line
/// defines; 5 a word after 262,144 others.
///
/// # Errors
///
/// The first line that breaks a rule, and want of memory.
#[tactic(auto, using(crate::proofs::Assembling::begins, crate::proofs::Assembling::stops, crate::proofs::Assembling::ended, crate::proofs::Assembling::not_ended))]
pub fn assemble(alloc: Global, text: &[u8]) -> Result<Vec<u8>, AsmError>
    requires { length text.now < 2 ^ 32 }
    ensures { MatchResult result (λ image. assembled text.now ≡ Image image.items) (TellsBroken (assembled text.now)) }
{
    let labels = collect(alloc, text)?;
    let mut progress = Progress {
        image: Vec::new(alloc),
        here: Definition { line: 0, place: 0 },
    };
    let mut rest = text;
    while let Some((line, others)) = cut_at(rest, b'\n') {
        progress.take(&labels, line)?;
        rest = others;
    }
    if !rest.is_empty() {
        return Err(AsmError::BadLine {
            line: progress.here.line + 1,
            rule: 1,
        });
    }
    Ok(progress.image)
}

impl Progress {
    /// Takes the next line.
    fn take(&mut self, labels: &Labels<'_>, line: &[u8]) -> Result<(), AsmError>
        requires line { self.old.here.line + 1 < 2 ^ 32 }
        requires place { self.old.here.place + 1 < 2 ^ 32 }
        ensures { MatchResult result
            (λ done. TakesLine (looked_up labels.now) self.old line.now self.new)
            (IsRefused (looked_up labels.now) self.old line.now) }
    {
        match judge(labels, self.here, line) {
            Err(rule) => {
                return Err(AsmError::BadLine {
                    line: self.here.line + 1,
                    rule,
                });
            }
            Ok(None) => {}
            Ok(Some(word)) => {
                if push_bytes(&mut self.image, word).is_err() {
                    return Err(AsmError::OutOfMemory);
                }
            }
        }
        self.here = self.here.next(line);
        Ok(())
    }
}

/// Appends the four bytes of a word, the lowest first.
fn push_bytes(image: &mut Vec<u8>, word: u32) -> Result<(), AllocError>
    ensures { OnOk result (image.new.items ≡ image.old.items ++ low_bytes 4 word) }
{
    image.extend_from_slice(&word.to_le_bytes())
}

/// The word of a line, if it has one, or the first rule that it breaks.
#[tactic(auto, unfolding(crate::specs::Source::judged))]
fn judge(labels: &Labels<'_>, here: Definition, line: &[u8]) -> Result<Option<u32>, u8>
    ensures { result ≡ judged (looked_up labels.now) here line.now }
{
    if is_blank(line) {
        return Ok(None);
    }
    match label(line) {
        Some(name) => judge_label(here.line, look_up(labels, name)),
        None => judge_word(labels, here.place, line),
    }
}

/// A label that an earlier line defines breaks rule 4.
fn judge_label(line: u32, first: Option<Definition>) -> Result<Option<u32>, u8>
    ensures { result ≡ (if is_repeated line first then Err 4 else Ok None) }
{
    match first {
        Some(first) if first.line < line => Err(4),
        _ => Ok(None),
    }
}

/// The word of a line that has one, or the first rule that it breaks.
fn judge_word(labels: &Labels<'_>, place: u32, line: &[u8]) -> Result<Option<u32>, u8>
    ensures { result ≡ within_limit place (said_of (looked_up labels.now) place line.now) }
{
    match read_said(labels, place, line) {
        Err(rule) => Err(rule),
        Ok(said) => {
            let word = word_of(&said);
            if place < IMAGE_LIMIT / 4 {
                Ok(Some(word))
            } else {
                Err(5)
            }
        }
    }
}

/// The word that a line says.
fn word_of(said: &Said) -> u32
    requires { IsSayable said.now }
    ensures { result ≡ word_said said.now }
{
    match said {
        Said::Raw(word) => *word,
        Said::Instruction(instr) => match encode(instr) {
            Some(word) => word,
            None => unreachable!(),
        },
    }
}
