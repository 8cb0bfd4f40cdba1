//! The lines of refusals.
ghost use Rattle.std.specs.Prelude.{◌≡◌, ◌+◌, ◌≤◌, ◌++◌, length};
ghost use Rattle.std.specs.Fmt.{decimal};
ghost use Rattle.text_lines.specs.Newline.{newline};
ghost use Rattle.asm_run.specs.Status.{refusal_text};
ghost use Rattle.asm_run.specs.declared.status.AsmStatus.TheVariants.{BadLine};

use crate::status::AsmStatus;
use arrayvec::ArrayVec;
use text_lines::{push_decimal, push_text};

/// A line of text that is being built.
pub(crate) type Line = ArrayVec<u8, 64>;

/// The line of a refusal; the other statuses have none.
#[tactic(auto, unfolding(crate::specs::Status::refusal_text))]
pub(crate) fn refusal_line(status: AsmStatus) -> Line
    ensures { result.items ≡ refusal_text status }
{
    let mut line = Line::new();
    match status {
        AsmStatus::Done | AsmStatus::WriteFault => {}
        AsmStatus::Usage => push_text(&mut line, b"usage: asm FILE or list FILE\n"),
        AsmStatus::ReadFault => push_text(&mut line, b"read fault file\n"),
        AsmStatus::TooLong { limit } => push_numbered(&mut line, b"too long file limit ", limit),
        AsmStatus::OutOfMemory => push_text(&mut line, b"out of memory\n"),
        AsmStatus::BadLine { line: number, rule } => push_bad_line(&mut line, number, rule),
        AsmStatus::BadLength { len } => push_numbered(&mut line, b"bad length ", len),
    }
    line
}

/// A text, a number and the end of the line.
fn push_numbered(line: &mut Line, text: &[u8], number: u32)
    requires { length line.old.items + length text.now ≤ 32 }
    ensures { line.new.items ≡ line.old.items ++ (text.now ++ (decimal number ++ newline)) }
{
    push_text(line, text);
    push_decimal(line, number);
    push_text(line, b"\n");
}

#[tactic(auto, unfolding(crate::specs::Status::refusal_text))]
fn push_bad_line(line: &mut Line, number: u32, rule: u8)
    requires { length line.old.items ≡ 0 }
    ensures { line.new.items ≡ line.old.items ++ refusal_text (BadLine number rule) }
{
    push_text(line, b"bad line ");
    push_decimal(line, number);
    push_text(line, b" rule ");
    push_decimal(line, u32::from(rule));
    push_text(line, b"\n");
}
