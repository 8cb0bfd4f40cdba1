//! The first words of the line forms.
ghost use Rattle.std.specs.Prelude.{◌≡◌, find};
ghost use Rattle.std.specs.Str.{bytes_eq};
ghost use Rattle.a64_asm.specs.Mnemonic.{name_of, branch_name, mnemonic_of};
ghost use Rattle.a64_asm.specs.declared.mnemonic.Mnemonic.TheVariants.{Access};

use a64_decode::{BranchKind, Condition, ExceptionKind, LogicalKind, MoveKind};

/// What the first word of a line asks for.
#[derive(Clone, Copy)]
pub enum Mnemonic {
    /// A wide move.
    Move(MoveKind),
    /// An addition, or a subtraction.
    AddSub { subtract: bool },
    /// A logical operation on registers.
    Logical(LogicalKind),
    /// A load or a store, of a byte or of a register's width.
    Access { load: bool, byte: bool },
    /// A branch, with a link or without.
    Branch { link: bool },
    /// A branch under a condition.
    BranchIf(Condition),
    /// A branch on a register that is zero, or isn't.
    CompareBranch { nonzero: bool },
    /// A branch to a register.
    BranchRegister(BranchKind),
    Exception(ExceptionKind),
    /// A read or a write of a system register.
    System { read: bool },
    ExceptionReturn,
    Nop,
    /// A word as it is.
    Word,
}

/// The word itself.
pub(crate) fn name(mnemonic: Mnemonic) -> &'static [u8]
    ensures { result.now ≡ name_of mnemonic }
{
    match mnemonic {
        Mnemonic::Move(MoveKind::Movn) => b"movn",
        Mnemonic::Move(MoveKind::Movz) => b"movz",
        Mnemonic::Move(MoveKind::Movk) => b"movk",
        Mnemonic::AddSub { subtract: false } => b"add",
        Mnemonic::AddSub { subtract: true } => b"sub",
        Mnemonic::Logical(LogicalKind::And) => b"and",
        Mnemonic::Logical(LogicalKind::Orr) => b"orr",
        Mnemonic::Logical(LogicalKind::Eor) => b"eor",
        Mnemonic::Logical(LogicalKind::Ands) => b"ands",
        Mnemonic::Access { load, byte } => access_name(load, byte),
        Mnemonic::Branch { link: false } => b"b",
        Mnemonic::Branch { link: true } => b"bl",
        Mnemonic::BranchIf(condition) => branch_name(condition),
        Mnemonic::CompareBranch { nonzero: false } => b"cbz",
        Mnemonic::CompareBranch { nonzero: true } => b"cbnz",
        Mnemonic::BranchRegister(BranchKind::Br) => b"br",
        Mnemonic::BranchRegister(BranchKind::Blr) => b"blr",
        Mnemonic::BranchRegister(BranchKind::Ret) => b"ret",
        Mnemonic::Exception(ExceptionKind::Svc) => b"svc",
        Mnemonic::Exception(ExceptionKind::Hvc) => b"hvc",
        Mnemonic::Exception(ExceptionKind::Smc) => b"smc",
        Mnemonic::Exception(ExceptionKind::Brk) => b"brk",
        Mnemonic::System { read: true } => b"mrs",
        Mnemonic::System { read: false } => b"msr",
        Mnemonic::ExceptionReturn => b"eret",
        Mnemonic::Nop => b"nop",
        Mnemonic::Word => b".word",
    }
}

fn access_name(load: bool, byte: bool) -> &'static [u8]
    ensures { result.now ≡ name_of (Access load byte) }
{
    match (load, byte) {
        (true, false) => b"ldr",
        (false, false) => b"str",
        (true, true) => b"ldrb",
        (false, true) => b"strb",
    }
}

fn branch_name(condition: Condition) -> &'static [u8]
    ensures { result.now ≡ branch_name condition }
{
    match condition {
        Condition::Eq => b"b.eq",
        Condition::Ne => b"b.ne",
        Condition::Cs => b"b.cs",
        Condition::Cc => b"b.cc",
        Condition::Mi => b"b.mi",
        Condition::Pl => b"b.pl",
        Condition::Vs => b"b.vs",
        Condition::Vc => b"b.vc",
        Condition::Hi => b"b.hi",
        Condition::Ls => b"b.ls",
        Condition::Ge => b"b.ge",
        Condition::Lt => b"b.lt",
        Condition::Gt => b"b.gt",
        Condition::Le => b"b.le",
        Condition::Al => b"b.al",
        Condition::Nv => b"b.nv",
    }
}

/// All that begin a line.
static MNEMONICS: [Mnemonic; 42] = [
    Mnemonic::Move(MoveKind::Movn),
    Mnemonic::Move(MoveKind::Movz),
    Mnemonic::Move(MoveKind::Movk),
    Mnemonic::AddSub { subtract: false },
    Mnemonic::AddSub { subtract: true },
    Mnemonic::Logical(LogicalKind::And),
    Mnemonic::Logical(LogicalKind::Orr),
    Mnemonic::Logical(LogicalKind::Eor),
    Mnemonic::Access {
        load: true,
        byte: false,
    },
    Mnemonic::Access {
        load: false,
        byte: false,
    },
    Mnemonic::Access {
        load: true,
        byte: true,
    },
    Mnemonic::Access {
        load: false,
        byte: true,
    },
    Mnemonic::Branch { link: false },
    Mnemonic::Branch { link: true },
    Mnemonic::CompareBranch { nonzero: false },
    Mnemonic::CompareBranch { nonzero: true },
    Mnemonic::BranchRegister(BranchKind::Br),
    Mnemonic::BranchRegister(BranchKind::Blr),
    Mnemonic::BranchRegister(BranchKind::Ret),
    Mnemonic::Exception(ExceptionKind::Svc),
    Mnemonic::Exception(ExceptionKind::Hvc),
    Mnemonic::Exception(ExceptionKind::Smc),
    Mnemonic::Exception(ExceptionKind::Brk),
    Mnemonic::System { read: true },
    Mnemonic::System { read: false },
    Mnemonic::ExceptionReturn,
    Mnemonic::Nop,
    Mnemonic::Word,
    Mnemonic::BranchIf(Condition::Eq),
    Mnemonic::BranchIf(Condition::Ne),
    Mnemonic::BranchIf(Condition::Cs),
    Mnemonic::BranchIf(Condition::Cc),
    Mnemonic::BranchIf(Condition::Mi),
    Mnemonic::BranchIf(Condition::Pl),
    Mnemonic::BranchIf(Condition::Vs),
    Mnemonic::BranchIf(Condition::Vc),
    Mnemonic::BranchIf(Condition::Hi),
    Mnemonic::BranchIf(Condition::Ls),
    Mnemonic::BranchIf(Condition::Ge),
    Mnemonic::BranchIf(Condition::Lt),
    Mnemonic::BranchIf(Condition::Gt),
    Mnemonic::BranchIf(Condition::Le),
];

/// What a text asks for, if it is one of these names.
#[tactic(auto, unfolding(crate::specs::Mnemonic::mnemonic_of, crate::specs::Mnemonic::mnemonics, crate::specs::Mnemonic::branches))]
pub(crate) fn read_mnemonic(text: &[u8]) -> Option<Mnemonic>
    ensures { result ≡ mnemonic_of text.now }
{
    named(&MNEMONICS, text)
}

/// The first of these of which the text is the name.
fn named(mnemonics: &[Mnemonic], text: &[u8]) -> Option<Mnemonic>
    ensures { result ≡ find (λ one. bytes_eq text.now (name_of one)) mnemonics.now }
{
    for one in mnemonics {
        if text == name(*one) {
            return Some(*one);
        }
    }
    None
}
