//! A schedule, read line by line.
ghost use Rattle.std.specs.Prelude.{◌≡◌, ◌+◌, ◌<◌, ◌^◌, nat_le, if◌then◌else◌, MatchResult};
ghost use Rattle.bao_config.specs.Config.{config_data};
ghost use Rattle.schedule.specs.Rules.{event_of, broken_rule, unless_broken};
ghost use Rattle.schedule.specs.Answer.{reached_by, TakesLine, IsRefused};
ghost use Rattle.schedule.specs.Schedule.{count_after_event};
ghost use Rattle.bao_types.specs.Shape.{event_limit};

use crate::error::ScheduleError;
use crate::line::Line;
use crate::places::{core_of, port_of};
use bao_config::Config;
use bao_types::EVENT_LIMIT;
use hypervisor::Event;

/// How far a schedule has been read.
#[derive(Drop)]
pub struct Progress {
    /// The events so far.
    pub events: Vec<Event>,
    /// The count of the last step, 0 before the first.
    pub count: u64,
    /// How many lines were read.
    pub lines: u32,
}

impl Progress {
    /// Takes the next line.
    #[inline(always)]
    pub(crate) fn take(&mut self, config: &Config, line: Line) -> Result<(), ScheduleError>
        requires { self.old.lines + 1 < 2 ^ 32 }
        ensures { MatchResult result
            (λ done. TakesLine (config_data config.now) (reached_by self.old) line (reached_by self.new))
            (λ error. IsRefused (config_data config.now) (reached_by self.old) line error) }
    {
        let said = match judge(config, self.count, self.events.len(), line) {
            Ok(said) => said,
            Err(rule) => {
                return Err(ScheduleError::Bad {
                    line: self.lines + 1,
                    rule,
                });
            }
        };
        self.lines += 1;
        if let Some(event) = said {
            self.count = count_after(self.count, event);
            if self.events.push(event).is_err() {
                return Err(ScheduleError::OutOfMemory);
            }
        }
        Ok(())
    }
}

/// The event of a line that breaks no rule, after this many events and a last step at this count; else the first rule
/// that it breaks.
fn judge(config: &Config, last: u64, number: usize, line: Line) -> Result<Option<Event>, u8>
    ensures { result ≡ unless_broken (broken_rule (config_data config.now) last number line) (event_of line) }
{
    match line {
        Line::BadForm => Err(1),
        Line::NoEvent => Ok(None),
        Line::Step { core, count } => match core_of(config, core) {
            None => Err(2),
            Some(_) if count < last => Err(4),
            Some(core) => within_limit(number, Event::Step { core, count }),
        },
        Line::Input { port, byte } => match port_of(config, port) {
            None => Err(3),
            Some(port) => within_limit(number, Event::Input { port, byte }),
        },
    }
}

/// The event, where a board takes it after this many others.
fn within_limit(number: usize, event: Event) -> Result<Option<Event>, u8>
    ensures { result ≡ (if nat_le event_limit number then Err 5 else Ok (Some event)) }
{
    if number < EVENT_LIMIT as usize {
        Ok(Some(event))
    } else {
        Err(5)
    }
}

/// The count of the last step, after this event.
fn count_after(last: u64, event: Event) -> u64
    ensures { result ≡ count_after_event last event }
{
    match event {
        Event::Step { core: _, count } => count,
        Event::Input { port: _, byte: _ } => last,
    }
}
