//! Decoding of the A64 base integer set: from a word to an instruction with typed fields.
//!
//! The table of words is a list of rows in this crate's definitions; the first row that a word matches decides. What
//! an instruction does is said by the crates above.
#![tactic(auto)]

pub use access::{MemAccess, access_of};
pub use instr::Instr;
pub use load_store::is_prefetch;
pub use number::{extended, loaded, low, sign_extend, width};
pub use operand::{
    BarrierKind, BitfieldKind, BranchKind, Condition, ExceptionKind, Extend, IndexMode,
    LiteralKind, LogicalKind, MoveKind, OneSourceKind, Operand, PairKind, ProductKind, PstateField,
    Reg, SelectKind, Shift, Size, Transfer, TwoSourceKind,
};
pub use table::{decode, words_are_distinct};

mod access;
mod branch;
mod field;
mod immediate;
mod instr;
mod load_store;
mod number;
mod operand;
mod register;
mod source;
mod system;
mod table;
