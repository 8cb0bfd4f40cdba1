//! The operands of a line, each by its text.
ghost use Rattle.std.specs.Prelude.{◌≡◌, MatchOption};
ghost use Rattle.a64_asm.specs.Operand.{Fewer, Three, triple_of, is_same, trio_of, base_of, offset_of, number_after, numbers_of, three_numbers, system_numbers};
ghost use Rattle.a64_asm.specs.Text.{cut_of};

use crate::register::{Register, read_register};
use crate::text::{cut_at, first_operand};
use a64_decode::Reg;
use numerals::number;

/// Three registers of one width, in the order of a line.
#[derive(Clone, Copy)]
pub struct Trio {
    pub wide: bool,
    pub rd: Reg,
    pub rn: Reg,
    pub rm: Reg,
}

/// The numbers of a system register's name, whatever they are.
#[derive(Clone, Copy)]
pub struct Numbers {
    pub op0: u64,
    pub op1: u64,
    pub crn: u64,
    pub crm: u64,
    pub op2: u64,
}

/// How far a branch goes, in bytes.
#[derive(Clone, Copy)]
pub struct Distance {
    /// Whether it goes back.
    pub back: bool,
    pub bytes: u64,
}

/// Three operands.
#[tactic(auto, unfolding(crate::specs::Operand::triple_of))]
pub(crate) fn three_operands(text: &[u8]) -> Option<(&[u8], &[u8], &[u8])>
    ensures { MatchOption result (triple_of text.now ≡ Fewer)
        (λ three. triple_of text.now ≡ Three three.0.now three.1.now three.2.now) }
{
    let (first, others) = first_operand(text)?;
    let (second, third) = first_operand(others)?;
    Some((first, second, third))
}

/// Whether two widths are one.
pub(crate) fn is_same(one: bool, other: bool) -> bool
    ensures { result ≡ is_same one other }
{
    match (one, other) {
        (false, false) | (true, true) => true,
        (false, true) | (true, false) => false,
    }
}

/// Three registers, where they are of one width.
pub(crate) fn make_trio(
    first: Option<Register>,
    second: Option<Register>,
    third: Option<Register>,
) -> Option<Trio>
    ensures { result ≡ trio_of first second third }
{
    let (Some(first), Some(second), Some(third)) = (first, second, third) else {
        return None;
    };
    if is_same(first.wide, second.wide) && is_same(first.wide, third.wide) {
        Some(Trio {
            wide: first.wide,
            rd: first.reg,
            rn: second.reg,
            rm: third.reg,
        })
    } else {
        None
    }
}

/// The base in `[N`.
pub(crate) fn base(text: &[u8]) -> Option<Register>
    ensures { result ≡ base_of text.now }
{
    match text.split_first() {
        Some((b'[', name)) => read_register(name, true),
        _ => None,
    }
}

/// The offset in `I]`.
#[tactic(auto, unfolding(crate::specs::Operand::offset_of))]
pub(crate) fn offset(text: &[u8]) -> Option<u64>
    ensures { result ≡ offset_of text.now }
{
    match cut_at(text, b']') {
        Some((digits, [])) => number(digits),
        _ => None,
    }
}

/// The number after a letter.
fn number_after(text: &[u8], letter: u8) -> Option<u64>
    ensures { result ≡ number_after letter text.now }
{
    match text.split_first() {
        Some((first, digits)) if *first == letter => number(digits),
        _ => None,
    }
}

/// The numbers in a system register's name.
#[tactic(auto, unfolding(crate::specs::Operand::system_numbers))]
pub(crate) fn system_numbers(text: &[u8]) -> Option<Numbers>
    ensures { result ≡ system_numbers text.now }
{
    let (op0, others) = cut_at(text, b'_')?;
    let (op1, others) = cut_at(others, b'_')?;
    last_numbers(number_after(op0, b's'), number(op1), others)
}

/// The numbers with the last three parts of the name.
fn last_numbers(op0: Option<u64>, op1: Option<u64>, text: &[u8]) -> Option<Numbers>
    ensures { result ≡ three_numbers op0 op1 (cut_of 95 text.now) }
{
    let (crn, others) = cut_at(text, b'_')?;
    let (crm, op2) = cut_at(others, b'_')?;
    all_numbers(
        op0,
        op1,
        number_after(crn, b'c'),
        number_after(crm, b'c'),
        number(op2),
    )
}

/// The five numbers, where all are there.
fn all_numbers(
    op0: Option<u64>,
    op1: Option<u64>,
    crn: Option<u64>,
    crm: Option<u64>,
    op2: Option<u64>,
) -> Option<Numbers>
    ensures { result ≡ numbers_of op0 op1 crn crm op2 }
{
    match (op0, op1, crn, crm, op2) {
        (Some(op0), Some(op1), Some(crn), Some(crm), Some(op2)) => Some(Numbers {
            op0,
            op1,
            crn,
            crm,
            op2,
        }),
        _ => None,
    }
}
