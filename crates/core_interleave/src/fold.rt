ghost use Rattle.std.specs.Prelude.{◌≡◌, ◌+◌, ◌≤◌, All, map, length};
ghost use Rattle.bao_wellformed.specs.Checked.{checked_data};
ghost use Rattle.vm_model.specs.Flat.{flat_run, entered_count};
ghost use Rattle.hypervisor.specs.Hyp.{stands_for};
ghost use Rattle.hypervisor.specs.Event.{flat_event, IsPlaced};
ghost use Rattle.hypervisor.specs.Tidy.{Tidy};
ghost use Rattle.core_interleave.specs.Run.{EndsAsAlone};

use bao_wellformed::Checked;
use board::Board;
use hypervisor::{Event, Hyp};

/// Takes the events in their order.
pub fn run<B: Board>(hyp: &mut Hyp, checked: &Checked, board: &mut B, events: &[Event])
    requires tidy { Tidy (checked_data checked.now) hyp.old (B.state board.old) }
    requires placed { All (IsPlaced (checked_data checked.now)) events.now }
    requires spent { (B.state board.old).spent + length events.now ≤ (B.state board.old).shape.events }
    ensures tidy { Tidy (checked_data checked.now) hyp.new (B.state board.new) }
    ensures state { let f = stands_for (checked_data checked.now) hyp.old (B.state board.old) in
        stands_for (checked_data checked.now) hyp.new (B.state board.new)
        ≡ flat_run (checked_data checked.now) f (map flat_event events.now) }
    ensures entered { let f = stands_for (checked_data checked.now) hyp.old (B.state board.old) in
        (B.state board.new).entered
        ≡ (B.state board.old).entered + entered_count (checked_data checked.now) f (map flat_event events.now) }
    ensures alone { let f = stands_for (checked_data checked.now) hyp.old (B.state board.old) in
        EndsAsAlone (checked_data checked.now) f (map flat_event events.now)
        (stands_for (checked_data checked.now) hyp.new (B.state board.new)) }
    ensures shape { (B.state board.new).shape ≡ (B.state board.old).shape }
    ensures entries { (B.state board.new).entries ≡ (B.state board.old).entries }
{
    for event in events {
        hyp.event(checked, board, event);
    }
}
