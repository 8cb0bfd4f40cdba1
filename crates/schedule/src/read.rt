//! The reading of a schedule.
ghost use Rattle.std.specs.Prelude.{◌≡◌, ◌<◌, ◌^◌, length, MatchResult, IfOk};
ghost use Rattle.bao_wellformed.specs.Checked.{checked_data};
ghost use Rattle.schedule.specs.Schedule.{schedule_of, Events};
ghost use Rattle.schedule.specs.Lawful.{IsLawful};
ghost use Rattle.schedule.specs.Answer.{TellsBroken};

use crate::error::ScheduleError;
use crate::line::next_line;
use crate::progress::Progress;
use bao_wellformed::Checked;
use hypervisor::Event;
use std::alloc::Global;

/// Reads the bytes of a schedule: lines that are each ended by LF.
///
/// A line is empty, a comment (`#` and any bytes), a step `s CORE COUNT` or an input `i PORT BYTE`, with single blanks and
/// decimal numbers without leading zeros. The rules, tried in this order on each line: 1 the form, an end without LF, a
/// number above 2^64 - 1 and a byte above 255 included; 2 the platform has no such core; 3 no VM is given the port; 4 the
/// count is below that of an earlier step of any core; 5 a million events stand before it.
///
/// # Errors
///
/// The first line that breaks a rule, and want of memory.
#[tactic(auto, using(crate::proofs::Reading::begins, crate::proofs::Reading::goes_on, crate::proofs::Reading::stops, crate::proofs::Reading::ended, crate::proofs::Reading::not_ended))]
pub fn read_schedule(
    alloc: Global,
    bytes: &[u8],
    checked: &Checked,
) -> Result<Vec<Event>, ScheduleError>
    requires { length bytes.now < 2 ^ 32 }
    ensures answer { MatchResult result
        (λ events. schedule_of (checked_data checked.now) bytes.now ≡ Events events.items)
        (TellsBroken (schedule_of (checked_data checked.now) bytes.now)) }
    ensures lawful { IfOk result (λ events. IsLawful (checked_data checked.now) events.items) }
{
    let config = checked.config();
    let mut progress = Progress {
        events: Vec::new(alloc),
        count: 0,
        lines: 0,
    };
    let mut rest = bytes;
    while let Some((line, others)) = next_line(rest) {
        progress.take(config, line)?;
        rest = others;
    }
    if !rest.is_empty() {
        return Err(ScheduleError::Bad {
            line: progress.lines + 1,
            rule: 1,
        });
    }
    Ok(progress.events)
}
