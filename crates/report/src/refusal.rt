ghost use Rattle.std.specs.Prelude.{◌≡◌, ◌+◌, ◌≤◌, ◌++◌, IsTrue, length};
ghost use Rattle.outside.specs.Sink.{Takes, HasCause};
ghost use Rattle.bao_config.specs.Path.{path_of};
ghost use Rattle.report.specs.Status.{refusal_text, is_refusal, file_text, why_text, ill_text, place_text, range_text, too_long_text, too_many_text, bad_schedule_text};

use crate::line::Line;
use crate::{FileId, Status, Why};
use bao_config::Spot;
use bao_types::ByteRange;
use bao_wellformed::{Ill, NONE};
use outside::{Sink, SinkFailed};
use text_lines::{push_decimal, push_short_hex, push_signed, push_text};

/// Writes the line of a refusal, by one put.
pub fn write_refusal<K: Sink>(sink: &mut K, status: &Status) -> Result<(), SinkFailed>
    requires { IsTrue (is_refusal status.now) }
    ensures taken { Takes (K.taken sink.old) (K.taken sink.new) (refusal_text status.now) result }
    ensures cause { HasCause (K.faults sink.old) (K.faults sink.new) result }
{
    sink.put(&refusal_line(status))
}

/// The line of a refusal; the other statuses have none.
#[tactic(auto, unfolding(crate::specs::Status::refusal_text))]
fn refusal_line(status: &Status) -> Line
    ensures { result.items ≡ refusal_text status.now }
{
    let mut line = Line::new();
    match status {
        Status::Done | Status::WriteFault => {}
        Status::Usage => push_text(
            &mut line,
            b"usage: run CONFIG SCHEDULE or check CONFIG or gen N\n",
        ),
        Status::ReadFault { file } => {
            push_text(&mut line, b"read fault ");
            push_file(&mut line, *file);
            push_text(&mut line, b"\n");
        }
        Status::TooLong { file, limit } => {
            push_too_long(&mut line, *file, *limit);
            push_text(&mut line, b"\n");
        }
        Status::BadToml => push_text(&mut line, b"bad toml\n"),
        Status::IllConfig { why } => {
            push_why(&mut line, *why);
            push_text(&mut line, b"\n");
        }
        Status::TooMany {
            core,
            runs,
            entries,
        } => {
            push_too_many(&mut line, *core, *runs, *entries);
            push_text(&mut line, b"\n");
        }
        Status::BadSchedule { line: number, rule } => {
            push_bad_schedule(&mut line, *number, *rule);
            push_text(&mut line, b"\n");
        }
        Status::OutOfMemory => push_text(&mut line, b"out of memory\n"),
    }
    line
}

fn push_file(line: &mut Line, file: FileId)
    requires { length line.old.items ≤ 16 }
    ensures text { line.new.items ≡ line.old.items ++ file_text file }
    ensures len { length line.new.items ≤ length line.old.items + 16 }
{
    match file {
        FileId::Config => push_text(line, b"config"),
        FileId::Image(vm) => {
            push_text(line, b"image ");
            push_decimal(line, u32::from(vm));
        }
        FileId::Schedule => push_text(line, b"schedule"),
    }
}

/// Why bytes are no configuration that the program takes.
fn push_why(line: &mut Line, why: Why)
    requires { length line.old.items ≡ 0 }
    ensures text { line.new.items ≡ line.old.items ++ why_text why }
    ensures len { length line.new.items ≤ 140 }
{
    match why {
        Why::Shape { spot } => {
            push_text(line, b"bad shape ");
            push_path(line, spot);
        }
        Why::Value { spot, value } => {
            push_text(line, b"bad value ");
            push_path(line, spot);
            push_text(line, b" ");
            push_signed(line, value);
        }
        Why::Rule { ill } => push_ill(line, &ill),
    }
}

fn push_path(line: &mut Line, spot: Spot)
    requires { length line.old.items ≤ 16 }
    ensures text { line.new.items ≡ line.old.items ++ path_of spot }
    ensures len { length line.new.items ≤ length line.old.items + 27 }
{
    push_text(line, &spot.path());
}

fn push_ill(line: &mut Line, ill: &Ill)
    requires { length line.old.items ≡ 0 }
    ensures text { line.new.items ≡ line.old.items ++ ill_text ill.now }
    ensures len { length line.new.items ≤ 140 }
{
    push_text(line, b"ill-formed rule ");
    push_decimal(line, u32::from(ill.rule));
    push_text(line, b" vm ");
    push_place(line, ill.vm);
    push_text(line, b" item ");
    push_place(line, ill.item);
    push_text(line, b" ");
    push_range(line, &ill.first);
    push_text(line, b" ");
    push_range(line, &ill.second);
}

/// A place in a list, `-` where there is none.
fn push_place(line: &mut Line, place: u8)
    requires { length line.old.items ≤ 64 }
    ensures text { line.new.items ≡ line.old.items ++ place_text place }
    ensures len { length line.new.items ≤ length line.old.items + 10 }
{
    if place == NONE {
        push_text(line, b"-");
    } else {
        push_decimal(line, u32::from(place));
    }
}

/// `B+S`
fn push_range(line: &mut Line, range: &ByteRange)
    requires { length line.old.items ≤ 120 }
    ensures text { line.new.items ≡ line.old.items ++ range_text range.now }
    ensures len { length line.new.items ≤ length line.old.items + 37 }
{
    push_short_hex(line, range.base);
    push_text(line, b"+");
    push_short_hex(line, range.size);
}

fn push_too_long(line: &mut Line, file: FileId, limit: u32)
    requires { length line.old.items ≡ 0 }
    ensures text { line.new.items ≡ line.old.items ++ too_long_text file limit }
    ensures len { length line.new.items ≤ 140 }
{
    push_text(line, b"too long ");
    push_file(line, file);
    push_text(line, b" limit ");
    push_decimal(line, limit);
}

fn push_too_many(line: &mut Line, core: u8, runs: u32, entries: u8)
    requires { length line.old.items ≡ 0 }
    ensures text { line.new.items ≡ line.old.items ++ too_many_text core runs entries }
    ensures len { length line.new.items ≤ 140 }
{
    push_text(line, b"too many runs core ");
    push_decimal(line, u32::from(core));
    push_text(line, b" runs ");
    push_decimal(line, runs);
    push_text(line, b" entries ");
    push_decimal(line, u32::from(entries));
}

fn push_bad_schedule(line: &mut Line, number: u32, rule: u8)
    requires { length line.old.items ≡ 0 }
    ensures text { line.new.items ≡ line.old.items ++ bad_schedule_text number rule }
    ensures len { length line.new.items ≤ 140 }
{
    push_text(line, b"bad schedule line ");
    push_decimal(line, number);
    push_text(line, b" rule ");
    push_decimal(line, u32::from(rule));
}
