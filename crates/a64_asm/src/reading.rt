//! What a line says that is one word.
ghost use Rattle.std.specs.Prelude.{◌≡◌, ◌<◌, false};
ghost use Rattle.a64_asm.specs.Text.{operand_of};
ghost use Rattle.a64_asm.specs.Operand.{triple_of, trio_of};
ghost use Rattle.a64_asm.specs.Register.{register_of};
ghost use Rattle.a64_asm.specs.Labels.{looked_up};
ghost use Rattle.a64_asm.specs.Reading.{is_shift, moved, move_row, number_added, registers_added, add_row, combined, logical_row, transfer_of, transferred, accessed, access, access_row, branch_row, condition_row, compared, compare_row, register_row, exception_row, is_system, system_said, system_row, word_row, alone, row_of, said_of};

use crate::label::{Labels, target, words_to};
use crate::mnemonic::{Mnemonic, read_mnemonic};
use crate::number::hex_word;
use crate::operand::{
    Numbers, Trio, base, is_same, make_trio, offset, system_numbers, three_operands,
};
use crate::register::{Register, read_register};
use crate::said::Said;
use crate::text::{cut_at, first_operand};
use a64_decode::{
    BranchKind, Condition, ExceptionKind, Instr, LogicalKind, MoveKind, Shift, Size, Transfer,
};
use bao_types::SysId;
use numerals::number;

/// What a line says that is the word of this place, else the first of the rules 1 to 3 that it breaks.
#[tactic(auto, unfolding(crate::specs::Reading::said_of))]
pub(crate) fn read_said(labels: &Labels<'_>, place: u32, text: &[u8]) -> Result<Said, u8>
    ensures { result ≡ said_of (looked_up labels.now) place text.now }
{
    match cut_at(text, b' ') {
        None => alone(read_mnemonic(text)),
        Some((name, operands)) => row(labels, place, read_mnemonic(name), operands),
    }
}

/// A first word without operands.
fn alone(mnemonic: Option<Mnemonic>) -> Result<Said, u8>
    ensures { result ≡ alone mnemonic }
{
    match mnemonic {
        Some(Mnemonic::ExceptionReturn) => Ok(Said::Instruction(Instr::ExceptionReturn)),
        Some(Mnemonic::Nop) => Ok(Said::Instruction(Instr::Hint { crm: 0, op2: 0 })),
        _ => Err(1),
    }
}

/// A first word with the text of its operands.
#[tactic(auto, unfolding(crate::specs::Reading::row_of))]
fn row(labels: &Labels<'_>, place: u32, mnemonic: Option<Mnemonic>, text: &[u8]) -> Result<Said, u8>
    ensures { result ≡ row_of (looked_up labels.now) place mnemonic text.now }
{
    match mnemonic {
        None => Err(1),
        Some(Mnemonic::Move(kind)) => move_row(kind, text),
        Some(Mnemonic::AddSub { subtract }) => add_row(subtract, text),
        Some(Mnemonic::Logical(kind)) => logical_row(kind, text),
        Some(Mnemonic::Access { load, byte }) => access_row(load, byte, text),
        Some(Mnemonic::Branch { link }) => branch_row(
            link,
            words_to(26, target(labels, place, text)),
        ),
        Some(Mnemonic::BranchIf(condition)) => condition_row(
            condition,
            words_to(19, target(labels, place, text)),
        ),
        Some(Mnemonic::CompareBranch { nonzero }) => compare_row(labels, place, nonzero, text),
        Some(Mnemonic::BranchRegister(kind)) => register_row(kind, read_register(text, false)),
        Some(Mnemonic::Exception(kind)) => exception_row(kind, number(text)),
        Some(Mnemonic::System { read }) => system_row(read, text),
        Some(Mnemonic::Word) => word_row(hex_word(text)),
        Some(Mnemonic::ExceptionReturn) | Some(Mnemonic::Nop) => Err(1),
    }
}

/// `NAME D, I, S`
fn move_row(kind: MoveKind, text: &[u8]) -> Result<Said, u8>
    ensures { result ≡ move_row kind (triple_of text.now) }
{
    match three_operands(text) {
        None => Err(1),
        Some((rd, imm, shift)) => moved(kind, read_register(rd, false), number(imm), number(shift)),
    }
}

fn moved(
    kind: MoveKind,
    rd: Option<Register>,
    imm: Option<u64>,
    shift: Option<u64>,
) -> Result<Said, u8>
    ensures { result ≡ moved kind rd imm shift }
{
    let (Some(rd), Some(imm), Some(shift)) = (rd, imm, shift) else {
        return Err(1);
    };
    if imm < 65536 && is_shift(rd.wide, shift) {
        Ok(Said::Instruction(Instr::MoveWide {
            wide: rd.wide,
            kind,
            hw: (shift / 16) as u8,
            imm16: imm as u16,
            rd: rd.reg,
        }))
    } else {
        Err(2)
    }
}

fn is_shift(wide: bool, shift: u64) -> bool
    ensures { result ≡ is_shift wide shift }
{
    shift == 0 || shift == 16 || (wide && (shift == 32 || shift == 48))
}

/// `NAME D, N, I` and `NAME D, N, M`
fn add_row(subtract: bool, text: &[u8]) -> Result<Said, u8>
    ensures { result ≡ add_row subtract (triple_of text.now) }
{
    let Some((rd, rn, last)) = three_operands(text) else {
        return Err(1);
    };
    match number(last) {
        Some(imm) => number_added(
            subtract,
            read_register(rd, true),
            read_register(rn, true),
            imm,
        ),
        None => registers_added(subtract, named_trio(rd, rn, last)),
    }
}

fn number_added(
    subtract: bool,
    rd: Option<Register>,
    rn: Option<Register>,
    imm: u64,
) -> Result<Said, u8>
    ensures { result ≡ number_added subtract rd rn imm }
{
    let (Some(rd), Some(rn)) = (rd, rn) else {
        return Err(1);
    };
    if !is_same(rd.wide, rn.wide) {
        return Err(1);
    }
    if imm < 4096 {
        Ok(Said::Instruction(Instr::AddSubImmediate {
            wide: rd.wide,
            subtract,
            flags: false,
            shifted: false,
            imm12: imm as u16,
            rn: rn.reg,
            rd: rd.reg,
        }))
    } else {
        Err(2)
    }
}

/// Three registers by their names.
fn named_trio(rd: &[u8], rn: &[u8], rm: &[u8]) -> Option<Trio>
    ensures { result ≡ trio_of (register_of false rd.now) (register_of false rn.now) (register_of false rm.now) }
{
    make_trio(
        read_register(rd, false),
        read_register(rn, false),
        read_register(rm, false),
    )
}

fn registers_added(subtract: bool, trio: Option<Trio>) -> Result<Said, u8>
    ensures { result ≡ registers_added subtract trio }
{
    match trio {
        None => Err(1),
        Some(trio) => Ok(Said::Instruction(Instr::AddSubShifted {
            wide: trio.wide,
            subtract,
            flags: false,
            shift: Shift::Lsl,
            rm: trio.rm,
            amount: 0,
            rn: trio.rn,
            rd: trio.rd,
        })),
    }
}

/// `NAME D, N, M`
fn logical_row(kind: LogicalKind, text: &[u8]) -> Result<Said, u8>
    ensures { result ≡ logical_row kind (triple_of text.now) }
{
    match three_operands(text) {
        None => Err(1),
        Some((rd, rn, rm)) => combined(kind, named_trio(rd, rn, rm)),
    }
}

fn combined(kind: LogicalKind, trio: Option<Trio>) -> Result<Said, u8>
    ensures { result ≡ combined kind trio }
{
    match trio {
        None => Err(1),
        Some(trio) => Ok(Said::Instruction(Instr::LogicalShifted {
            wide: trio.wide,
            kind,
            shift: Shift::Lsl,
            invert: false,
            rm: trio.rm,
            amount: 0,
            rn: trio.rn,
            rd: trio.rd,
        })),
    }
}

/// `NAME T, [N, I]`
fn access_row(load: bool, byte: bool, text: &[u8]) -> Result<Said, u8>
    ensures { result ≡ access_row load byte (triple_of text.now) }
{
    match three_operands(text) {
        None => Err(1),
        Some((rt, rn, number)) => access(
            load,
            byte,
            read_register(rt, false),
            base(rn),
            offset(number),
        ),
    }
}

fn access(
    load: bool,
    byte: bool,
    rt: Option<Register>,
    base: Option<Register>,
    offset: Option<u64>,
) -> Result<Said, u8>
    ensures { result ≡ access load byte rt base offset }
{
    let (Some(rt), Some(base), Some(offset)) = (rt, base, offset) else {
        return Err(1);
    };
    if base.wide {
        accessed(load, byte, rt, base, offset)
    } else {
        Err(1)
    }
}

/// A byte goes to or from a 32-bit register.
fn accessed(load: bool, byte: bool, rt: Register, base: Register, offset: u64) -> Result<Said, u8>
    ensures { result ≡ accessed load byte rt base offset }
{
    match (byte, rt.wide) {
        (false, true) => transferred(load, Size::Double, rt, base, offset),
        (false, false) => transferred(load, Size::Word, rt, base, offset),
        (true, true) => Err(1),
        (true, false) => transferred(load, Size::Byte, rt, base, offset),
    }
}

/// The offset is a multiple of the width that fits 12 bits.
#[tactic(auto, using(crate::proofs::Offsets::some_width))]
fn transferred(
    load: bool,
    size: Size,
    rt: Register,
    base: Register,
    offset: u64,
) -> Result<Said, u8>
    ensures { result ≡ transferred load size rt base offset }
{
    let width = u64::from(size.bytes());
    if offset % width == 0 && offset / width < 4096 {
        Ok(Said::Instruction(Instr::LoadStoreUnsigned {
            size,
            transfer: transfer_of(load),
            imm12: (offset / width) as u16,
            rn: base.reg,
            rt: rt.reg,
        }))
    } else {
        Err(2)
    }
}

fn transfer_of(load: bool) -> Transfer
    ensures { result ≡ transfer_of load }
{
    if load {
        Transfer::Load
    } else {
        Transfer::Store
    }
}

/// `NAME L`
fn branch_row(link: bool, words: Result<u64, u8>) -> Result<Said, u8>
    ensures { result ≡ branch_row link words }
{
    match words {
        Err(rule) => Err(rule),
        Ok(offset) => Ok(Said::Instruction(Instr::Branch { link, offset })),
    }
}

/// `NAME L`, under a condition.
fn condition_row(condition: Condition, words: Result<u64, u8>) -> Result<Said, u8>
    ensures { result ≡ condition_row condition words }
{
    match words {
        Err(rule) => Err(rule),
        Ok(offset) => Ok(Said::Instruction(Instr::BranchConditional { offset, condition })),
    }
}

/// `NAME T, L`
fn compare_row(labels: &Labels<'_>, place: u32, nonzero: bool, text: &[u8]) -> Result<Said, u8>
    ensures { result ≡ compare_row (looked_up labels.now) place nonzero (operand_of text.now) }
{
    match first_operand(text) {
        None => Err(1),
        Some((rt, name)) => compared(
            nonzero,
            read_register(rt, false),
            words_to(19, target(labels, place, name)),
        ),
    }
}

fn compared(nonzero: bool, rt: Option<Register>, words: Result<u64, u8>) -> Result<Said, u8>
    ensures { result ≡ compared nonzero rt words }
{
    match (rt, words) {
        (None, _) => Err(1),
        (Some(_), Err(rule)) => Err(rule),
        (Some(rt), Ok(offset)) => Ok(Said::Instruction(Instr::CompareBranch {
            wide: rt.wide,
            nonzero,
            offset,
            rt: rt.reg,
        })),
    }
}

/// `NAME N`
fn register_row(kind: BranchKind, rn: Option<Register>) -> Result<Said, u8>
    ensures { result ≡ register_row kind rn }
{
    match rn {
        None => Err(1),
        Some(rn) => {
            if rn.wide {
                Ok(Said::Instruction(Instr::BranchRegister { kind, rn: rn.reg }))
            } else {
                Err(1)
            }
        }
    }
}

/// `NAME I`
fn exception_row(kind: ExceptionKind, imm: Option<u64>) -> Result<Said, u8>
    ensures { result ≡ exception_row kind imm }
{
    match imm {
        None => Err(1),
        Some(imm) => {
            if imm < 65536 {
                Ok(Said::Instruction(Instr::Exception {
                    kind,
                    imm16: imm as u16,
                }))
            } else {
                Err(2)
            }
        }
    }
}

/// `mrs T, R` and `msr R, T`
fn system_row(read: bool, text: &[u8]) -> Result<Said, u8>
    ensures { result ≡ system_row read (operand_of text.now) }
{
    let Some((first, second)) = first_operand(text) else {
        return Err(1);
    };
    if read {
        system_said(true, system_numbers(second), read_register(first, false))
    } else {
        system_said(false, system_numbers(first), read_register(second, false))
    }
}

fn system_said(read: bool, numbers: Option<Numbers>, rt: Option<Register>) -> Result<Said, u8>
    ensures { result ≡ system_said read numbers rt }
{
    let (Some(numbers), Some(rt)) = (numbers, rt) else {
        return Err(1);
    };
    if !rt.wide {
        return Err(1);
    }
    if is_system(&numbers) {
        Ok(Said::Instruction(Instr::SystemRegister {
            read,
            id: SysId {
                op0: numbers.op0 as u8,
                op1: numbers.op1 as u8,
                crn: numbers.crn as u8,
                crm: numbers.crm as u8,
                op2: numbers.op2 as u8,
            },
            rt: rt.reg,
        }))
    } else {
        Err(2)
    }
}

/// Whether the numbers fit their fields.
fn is_system(n: &Numbers) -> bool
    ensures { result ≡ is_system n.now }
{
    (n.op0 == 2 || n.op0 == 3) && n.op1 < 8 && n.crn < 16 && n.crm < 16 && n.op2 < 8
}

/// `.word H`
fn word_row(word: Option<u32>) -> Result<Said, u8>
    ensures { result ≡ word_row word }
{
    match word {
        None => Err(1),
        Some(word) => Ok(Said::Raw(word)),
    }
}
