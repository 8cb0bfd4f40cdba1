//! The listing: from the words of an image to their lines.
ghost use Rattle.std.specs.Prelude.{◌≡◌, ◌^◌, ◌<◌, ◌++◌, if◌then◌else◌, None, Some, false, true, IfOk, OnOk, MatchResult, length, IsTrue};
ghost use Rattle.std.specs.Fmt.{decimal};
ghost use Rattle.a64_decode.specs.Lawful.{IsLawful};
ghost use Rattle.a64_asm.specs.Number.{IsOffset};
ghost use Rattle.a64_asm.specs.Register.{register_text};
ghost use Rattle.a64_asm.specs.Mnemonic.{name_of};
ghost use Rattle.bao_types.specs.Bytes.{little_endian};
ghost use Rattle.a64_asm.specs.Listing.{phrase, move_text, add_text, registers_text, access_text, branch_text, compare_text, system_name, system_text, is_unshifted, is_named, is_condition, transfer_form, access_form, form_of, raw_text, line_of_word, listing, is_image_length, Pushes, TellsLength};

use crate::error::ListError;
use crate::mnemonic::{Mnemonic, name};
use crate::source::IMAGE_LIMIT;
use crate::write::{
    push_decimal, push_hex, push_name, push_offset, push_operand, push_register, push_text,
};
use a64_decode::{
    BranchKind, Condition, ExceptionKind, Instr, LogicalKind, MoveKind, Reg, Shift, Size, Transfer,
    decode,
};
use bao_types::SysId;
use std::alloc::{AllocError, Global};

/// Appends the line of a word.
#[tactic(auto, unfolding(crate::specs::Listing::line_of_word))]
pub(crate) fn push_word(out: &mut Vec<u8>, word: u32) -> Result<(), AllocError>
    ensures { OnOk result (out.new.items ≡ out.old.items ++ line_of_word word) }
{
    if !push_form(out, &decode(word))? {
        push_raw(out, word)?;
    }
    push_text(out, b"\n")
}

/// Appends the line of an instruction that has a form, without its end; false where it has none.
#[rattlefmt::skip]
#[tactic(auto, unfolding(crate::specs::Listing::form_of), using(crate::proofs::Offsets::of_26, crate::proofs::Offsets::of_19))]
fn push_form(out: &mut Vec<u8>, instr: &Instr) -> Result<bool, AllocError>
    requires { IsLawful instr.now }
    ensures { IfOk result (Pushes (form_of instr.now) out.old.items out.new.items) }
{
    match *instr {
        Instr::MoveWide { wide, kind, hw, imm16, rd } => push_move(out, kind, wide, hw, imm16, rd),
        Instr::AddSubImmediate { wide, subtract, flags, shifted, imm12, rn, rd } => {
            if flags || shifted { Ok(false) } else { push_add(out, subtract, wide, imm12, rn, rd) }
        }
        Instr::AddSubShifted { wide, subtract, flags, shift, rm, amount, rn, rd } => {
            let has_form = !flags && is_unshifted(shift, amount);
            push_registers(out, has_form, Mnemonic::AddSub { subtract }, wide, rm, rn, rd)
        }
        Instr::LogicalShifted { wide, kind, shift, invert, rm, amount, rn, rd } => {
            let has_form = !invert && is_named(kind) && is_unshifted(shift, amount);
            push_registers(out, has_form, Mnemonic::Logical(kind), wide, rm, rn, rd)
        }
        Instr::LoadStoreUnsigned { size, transfer, imm12, rn, rt } => push_access(out, size, transfer, imm12, rn, rt),
        Instr::Branch { link, offset } => push_branch(out, Mnemonic::Branch { link }, offset),
        Instr::BranchConditional { offset, condition } => {
            if is_condition(condition) { push_branch(out, Mnemonic::BranchIf(condition), offset) } else { Ok(false) }
        }
        Instr::CompareBranch { wide, nonzero, offset, rt } => push_compare(out, nonzero, wide, offset, rt),
        Instr::BranchRegister { kind, rn } => push_to_register(out, kind, rn),
        Instr::Exception { kind, imm16 } => push_exception(out, kind, imm16),
        Instr::SystemRegister { read, id, rt } => push_system(out, read, id, rt),
        Instr::ExceptionReturn => push_alone(out, Mnemonic::ExceptionReturn),
        Instr::Hint { crm, op2 } => {
            if crm == 0 && op2 == 0 { push_alone(out, Mnemonic::Nop) } else { Ok(false) }
        }
        Instr::Address { .. } | Instr::LogicalImmediate { .. } | Instr::Bitfield { .. } | Instr::Extract { .. }
        | Instr::TestBranch { .. } | Instr::Barrier { .. } | Instr::MsrImmediate { .. } | Instr::System { .. }
        | Instr::AddSubExtended { .. } | Instr::AddSubCarry { .. } | Instr::ConditionalCompare { .. }
        | Instr::ConditionalSelect { .. } | Instr::ThreeSources { .. } | Instr::TwoSources { .. }
        | Instr::OneSource { .. } | Instr::LoadLiteral { .. } | Instr::Pair { .. } | Instr::LoadStoreIndexed { .. }
        | Instr::LoadStoreRegister { .. } | Instr::Undefined => Ok(false),
    }
}

/// Whether a shifted operand is the register itself.
fn is_unshifted(shift: Shift, amount: u8) -> bool
    ensures { result ≡ is_unshifted shift amount }
{
    match shift {
        Shift::Lsl => amount == 0,
        Shift::Lsr | Shift::Asr | Shift::Ror => false,
    }
}

/// Whether a line names the operation: it sets no flags.
fn is_named(kind: LogicalKind) -> bool
    ensures { result ≡ is_named kind }
{
    match kind {
        LogicalKind::And | LogicalKind::Orr | LogicalKind::Eor => true,
        LogicalKind::Ands => false,
    }
}

/// Whether a line names the condition: it doesn't always hold.
fn is_condition(condition: Condition) -> bool
    ensures { result ≡ is_condition condition }
{
    match condition {
        Condition::Eq
        | Condition::Ne
        | Condition::Cs
        | Condition::Cc
        | Condition::Mi
        | Condition::Pl
        | Condition::Vs
        | Condition::Vc
        | Condition::Hi
        | Condition::Ls
        | Condition::Ge
        | Condition::Lt
        | Condition::Gt
        | Condition::Le => true,
        Condition::Al | Condition::Nv => false,
    }
}

/// `NAME D, I, S`
#[tactic(auto, unfolding(crate::specs::Listing::move_text))]
fn push_move(
    out: &mut Vec<u8>,
    kind: MoveKind,
    wide: bool,
    hw: u8,
    imm16: u16,
    rd: Reg,
) -> Result<bool, AllocError>
    ensures { IfOk result (Pushes (Some (move_text kind wide hw imm16 rd)) out.old.items out.new.items) }
{
    push_name(out, Mnemonic::Move(kind))?;
    push_operand(out, false, wide, rd)?;
    push_decimal(out, u64::from(imm16))?;
    push_text(out, b", ")?;
    push_decimal(out, 16 * u64::from(hw))?;
    Ok(true)
}

/// `NAME D, N, I`
#[tactic(auto, unfolding(crate::specs::Listing::add_text))]
fn push_add(
    out: &mut Vec<u8>,
    subtract: bool,
    wide: bool,
    imm12: u16,
    rn: Reg,
    rd: Reg,
) -> Result<bool, AllocError>
    ensures { IfOk result (Pushes (Some (add_text subtract wide imm12 rn rd)) out.old.items out.new.items) }
{
    push_name(out, Mnemonic::AddSub { subtract })?;
    push_operand(out, true, wide, rd)?;
    push_operand(out, true, wide, rn)?;
    push_decimal(out, u64::from(imm12))?;
    Ok(true)
}

/// `NAME D, N, M`, where the operation has a form.
#[tactic(auto, unfolding(crate::specs::Listing::registers_text))]
fn push_registers(
    out: &mut Vec<u8>,
    has_form: bool,
    mnemonic: Mnemonic,
    wide: bool,
    rm: Reg,
    rn: Reg,
    rd: Reg,
) -> Result<bool, AllocError>
    ensures { IfOk result (Pushes (if has_form then Some (registers_text mnemonic wide rm rn rd) else None) out.old.items out.new.items) }
{
    if !has_form {
        return Ok(false);
    }
    push_name(out, mnemonic)?;
    push_operand(out, false, wide, rd)?;
    push_operand(out, false, wide, rn)?;
    push_register(out, false, wide, rm)?;
    Ok(true)
}

/// A load or store, where it has a form.
fn push_access(
    out: &mut Vec<u8>,
    size: Size,
    transfer: Transfer,
    imm12: u16,
    rn: Reg,
    rt: Reg,
) -> Result<bool, AllocError>
    ensures { IfOk result (Pushes (access_form size transfer imm12 rn rt) out.old.items out.new.items) }
{
    match transfer {
        Transfer::Store => push_transfer(out, false, size, imm12, rn, rt),
        Transfer::Load => push_transfer(out, true, size, imm12, rn, rt),
        Transfer::LoadSigned | Transfer::LoadSignedWord => Ok(false),
    }
}

fn push_transfer(
    out: &mut Vec<u8>,
    load: bool,
    size: Size,
    imm12: u16,
    rn: Reg,
    rt: Reg,
) -> Result<bool, AllocError>
    ensures { IfOk result (Pushes (transfer_form load size imm12 rn rt) out.old.items out.new.items) }
{
    let count = u64::from(imm12);
    match size {
        Size::Byte => push_at(
            out,
            Mnemonic::Access { load, byte: true },
            false,
            count,
            rn,
            rt,
        ),
        Size::Half => Ok(false),
        Size::Word => push_at(
            out,
            Mnemonic::Access { load, byte: false },
            false,
            4 * count,
            rn,
            rt,
        ),
        Size::Double => push_at(
            out,
            Mnemonic::Access { load, byte: false },
            true,
            8 * count,
            rn,
            rt,
        ),
    }
}

/// `NAME T, [N, I]`
#[tactic(auto, unfolding(crate::specs::Listing::access_text))]
fn push_at(
    out: &mut Vec<u8>,
    mnemonic: Mnemonic,
    wide: bool,
    offset: u64,
    rn: Reg,
    rt: Reg,
) -> Result<bool, AllocError>
    ensures { IfOk result (Pushes (Some (access_text mnemonic wide offset rn rt)) out.old.items out.new.items) }
{
    push_name(out, mnemonic)?;
    push_operand(out, false, wide, rt)?;
    push_text(out, b"[")?;
    push_operand(out, true, true, rn)?;
    push_decimal(out, offset)?;
    push_text(out, b"]")?;
    Ok(true)
}

/// `NAME L`
#[tactic(auto, unfolding(crate::specs::Listing::branch_text))]
fn push_branch(out: &mut Vec<u8>, mnemonic: Mnemonic, offset: u64) -> Result<bool, AllocError>
    requires { IsOffset offset }
    ensures { IfOk result (Pushes (Some (branch_text mnemonic offset)) out.old.items out.new.items) }
{
    push_name(out, mnemonic)?;
    push_offset(out, offset)?;
    Ok(true)
}

/// `NAME T, L`
#[tactic(auto, unfolding(crate::specs::Listing::compare_text))]
fn push_compare(
    out: &mut Vec<u8>,
    nonzero: bool,
    wide: bool,
    offset: u64,
    rt: Reg,
) -> Result<bool, AllocError>
    requires { IsOffset offset }
    ensures { IfOk result (Pushes (Some (compare_text nonzero wide offset rt)) out.old.items out.new.items) }
{
    push_name(out, Mnemonic::CompareBranch { nonzero })?;
    push_operand(out, false, wide, rt)?;
    push_offset(out, offset)?;
    Ok(true)
}

/// `NAME N`
fn push_to_register(out: &mut Vec<u8>, kind: BranchKind, rn: Reg) -> Result<bool, AllocError>
    ensures { IfOk result (Pushes (Some (phrase (Mnemonic.BranchRegister kind) (register_text false true rn))) out.old.items out.new.items) }
{
    push_name(out, Mnemonic::BranchRegister(kind))?;
    push_register(out, false, true, rn)?;
    Ok(true)
}

/// `NAME I`
fn push_exception(out: &mut Vec<u8>, kind: ExceptionKind, imm16: u16) -> Result<bool, AllocError>
    ensures { IfOk result (Pushes (Some (phrase (Mnemonic.Exception kind) (decimal imm16))) out.old.items out.new.items) }
{
    push_name(out, Mnemonic::Exception(kind))?;
    push_decimal(out, u64::from(imm16))?;
    Ok(true)
}

/// `mrs T, R` and `msr R, T`
#[tactic(auto, unfolding(crate::specs::Listing::system_text))]
fn push_system(out: &mut Vec<u8>, read: bool, id: SysId, rt: Reg) -> Result<bool, AllocError>
    ensures { IfOk result (Pushes (Some (system_text read id rt)) out.old.items out.new.items) }
{
    push_name(out, Mnemonic::System { read })?;
    if read {
        push_operand(out, false, true, rt)?;
        push_system_name(out, id)?;
    } else {
        push_system_name(out, id)?;
        push_text(out, b", ")?;
        push_register(out, false, true, rt)?;
    }
    Ok(true)
}

/// `sA_B_cC_cD_E`
#[tactic(auto, unfolding(crate::specs::Listing::system_name))]
fn push_system_name(out: &mut Vec<u8>, id: SysId) -> Result<(), AllocError>
    ensures { OnOk result (out.new.items ≡ out.old.items ++ system_name id) }
{
    push_part(out, b"s", id.op0)?;
    push_part(out, b"_", id.op1)?;
    push_part(out, b"_c", id.crn)?;
    push_part(out, b"_c", id.crm)?;
    push_part(out, b"_", id.op2)
}

/// A text and a number.
fn push_part(out: &mut Vec<u8>, text: &[u8], number: u8) -> Result<(), AllocError>
    ensures { OnOk result (out.new.items ≡ out.old.items ++ (text.now ++ decimal number)) }
{
    push_text(out, text)?;
    push_decimal(out, u64::from(number))
}

/// A first word that is all of its line.
fn push_alone(out: &mut Vec<u8>, mnemonic: Mnemonic) -> Result<bool, AllocError>
    ensures { IfOk result (Pushes (Some (name_of mnemonic)) out.old.items out.new.items) }
{
    push_text(out, name(mnemonic))?;
    Ok(true)
}

/// `.word` and eight digits.
#[tactic(auto, unfolding(crate::specs::Listing::raw_text))]
fn push_raw(out: &mut Vec<u8>, word: u32) -> Result<(), AllocError>
    ensures { OnOk result (out.new.items ≡ out.old.items ++ raw_text word) }
{
    push_name(out, Mnemonic::Word)?;
    push_hex(out, 8, word)
}

/// Lists an image: a line for each of its words, which is read again as that word.
///
/// # Errors
///
/// A length that isn't that of whole words, or is above a mebibyte; and want of memory.
pub fn list(alloc: Global, image: &[u8]) -> Result<Vec<u8>, ListError>
    requires { length image.now < 2 ^ 32 }
    ensures { MatchResult result
        (λ text. IsTrue (is_image_length (length image.now)) × (text.items ≡ listing image.now))
        (TellsLength (length image.now)) }
{
    if !is_image_length(image.len()) {
        return Err(ListError::BadLength {
            len: image.len() as u32,
        });
    }
    list_words(alloc, image)
}

/// Whether this many bytes are whole words, and not too many.
fn is_image_length(len: usize) -> bool
    ensures { result ≡ is_image_length len }
{
    len % 4 == 0 && len <= IMAGE_LIMIT as usize
}

/// A line for each word.
fn list_words(alloc: Global, image: &[u8]) -> Result<Vec<u8>, ListError>
    requires { IsTrue (is_image_length (length image.now)) }
    ensures { MatchResult result (λ text. text.items ≡ listing image.now) (λ error. error ≡ ListError.OutOfMemory) }
{
    let mut out = Vec::new(alloc);
    let mut rest = image;
    while rest.len() >= 4 {
        let (bytes, others) = rest.split_at(4);
        if push_word(&mut out, word_at(bytes)).is_err() {
            return Err(ListError::OutOfMemory);
        }
        rest = others;
    }
    Ok(out)
}

/// The word of four bytes, of which the first is the lowest.
fn word_at(bytes: &[u8]) -> u32
    requires { length bytes.now ≡ 4 }
    ensures { result ≡ little_endian bytes.now }
{
    let high = u32::from(bytes[2]) + 256 * u32::from(bytes[3]);
    u32::from(bytes[0]) + 256 * (u32::from(bytes[1]) + 256 * high)
}
