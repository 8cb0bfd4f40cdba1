ghost use Rattle.std.specs.Prelude.{◌≡◌};
ghost use Rattle.generic_timer.specs.Timer.{meets_condition, rises, with_level};

use bao_types::TimerRegs;

/// CNTV_CTL_EL0.ISTATUS: whether the timer is on and the count `now` is at or past the compare value, be it masked or
/// not.
pub fn status(timer: &TimerRegs, now: u64) -> bool
    ensures { result ≡ meets_condition timer.now now }
{
    let enabled = timer.ctl % 2 == 1;
    enabled && now >= timer.cval
}

/// Looks at the timer's line at the count `now`: true exactly where its level rises, so that PPI 27 is to be raised.
/// The timer keeps the level for the next look.
pub fn edge(timer: &mut TimerRegs, now: u64) -> bool
    ensures raised { result ≡ rises timer.old now }
    ensures kept { timer.new ≡ with_level timer.old now }
{
    let masked = timer.ctl / 2 % 2 == 1;
    let level = status(timer, now) && !masked;
    let rises = level && !timer.level;
    timer.level = level;
    rises
}
