ghost use Rattle.std.specs.Prelude.{◌≡◌, ◌≤◌, ◌<◌, true, [], length, map, slice_set};
ghost use Rattle.bao_config.specs.Config.{config_data};
ghost use Rattle.bao_wellformed.specs.Checked.{checked_data};
ghost use Rattle.bao_wellformed.specs.Map.{owner};
ghost use Rattle.board.specs.Machine.{entries_at, fitted_with};
ghost use Rattle.vm_model.specs.Apart.{FitRooms};
ghost use Rattle.vm_model.specs.Boot.{boot, boot_bytes, boot_cores};
ghost use Rattle.hypervisor.specs.Hyp.{stands_for};
ghost use Rattle.hypervisor.specs.Packed.{all_filled, filled};
ghost use Rattle.hypervisor.specs.Shape.{shape_of};
ghost use Rattle.hypervisor.specs.Tidy.{Tidy};
ghost use Rattle.vm_create.specs.Boot.{ArePlans, IsFresh, IsPlanOf, booted, packings_of, start_of};

use bao_config::Config;
use bao_wellformed::Checked;
use board::Board;
use hypervisor::{Hyp, owner, virtual_core};
use mpu_packer::Plan;

/// Boots all VMs on a board that was just fitted with their configuration's shape: each image is loaded at its VM's place,
/// each core has its packing, and the first core of each VM is about to run at the VM's start. It answers the hypervisor
/// for them. The ports stay as they are.
pub fn boot<B: Board>(board: &mut B, checked: &Checked, plans: &[Plan], images: &[Vec<u8>]) -> Hyp
    requires fresh { IsFresh (checked_data checked.now) (B.state board.old) }
    requires plans { ArePlans (checked_data checked.now) plans.now }
    requires images { FitRooms (checked_data checked.now) (map (λ image. image.items) images.now) }
    ensures tidy { Tidy (checked_data checked.now) result (B.state board.new) }
    ensures state { let model = boot (checked_data checked.now) (map (λ image. image.items) images.now) in
        stands_for (checked_data checked.now) result (B.state board.new) ≡ record model { ports = (B.state board.old).ports } }
    ensures entered { (B.state board.new).entered ≡ 0 }
    ensures board { B.state board.new
        ≡ booted (checked_data checked.now) (packings_of plans.now) (map (λ image. image.items) images.now) (B.state board.old) }
{
    load_images(board, checked, images);
    set_entries(board, checked, plans);
    start_cores(board, checked);
    Hyp::new(checked)
}

/// Loads each image at its VM's place.
fn load_images<B: Board>(board: &mut B, checked: &Checked, images: &[Vec<u8>])
    requires fresh { IsFresh (checked_data checked.now) (B.state board.old) }
    requires images { FitRooms (checked_data checked.now) (map (λ image. image.items) images.now) }
    ensures { let cfg = checked_data checked.now in
        B.state board.new ≡ record (B.state board.old) { bytes = boot_bytes cfg.vms (map (λ image. image.items) images.now) } }
{
    // The model lays the first image over the later ones.
    let vms = checked.config().vms.as_slice();
    for v in (0..images.len()).rev() {
        board.load(vms[v].place.base, images[v].as_slice());
    }
}

/// Sets the entries of each core.
fn set_entries<B: Board>(board: &mut B, checked: &Checked, plans: &[Plan])
    requires fitted { (B.state board.old).fitted ≡ true }
    requires at_rest { (B.state board.old).entered ≡ 0 }
    requires shape { (B.state board.old).shape ≡ shape_of (checked_data checked.now) (B.state board.old).shape.events }
    requires zero { (B.state board.old).entries
        ≡ (fitted_with (B.state board.old).shape (B.state board.old)).entries }
    requires plans { ArePlans (checked_data checked.now) plans.now }
    ensures { B.state board.new ≡ record (B.state board.old) {
      entries = all_filled (checked_data checked.now).platform.cores (packings_of plans.now);
    } }
{
    for (core, plan) in plans.iter().enumerate() {
        set_core_entries(board, checked, core as u8, plan);
    }
}

/// Sets the entries of a core, which are zero, to its packing.
fn set_core_entries<B: Board>(board: &mut B, checked: &Checked, core: u8, plan: &Plan)
    requires fitted { (B.state board.old).fitted ≡ true }
    requires at_rest { (B.state board.old).entered ≡ 0 }
    requires shape { (B.state board.old).shape ≡ shape_of (checked_data checked.now) (B.state board.old).shape.events }
    requires core { core < length (B.state board.old).entries }
    requires plan { IsPlanOf (checked_data checked.now) core plan.now }
    requires zero { entries_at (B.state board.old).entries core ≡ filled (length (entries_at (B.state board.old).entries core)) [] }
    requires room { length plan.now.entries.items ≤ length (entries_at (B.state board.old).entries core) }
    ensures { B.state board.new ≡ record (B.state board.old) {
      entries = slice_set (B.state board.old).entries core
          (filled (length (entries_at (B.state board.old).entries core)) plan.now.entries.items);
    } }
{
    for (index, entry) in plan.entries.iter().enumerate() {
        board.set_entry(core, index as u8, *entry);
    }
}

/// Lets the first core of each VM begin at the VM's start. All others stay reset.
fn start_cores<B: Board>(board: &mut B, checked: &Checked)
    requires fitted { (B.state board.old).fitted ≡ true }
    requires shape { (B.state board.old).shape ≡ shape_of (checked_data checked.now) (B.state board.old).shape.events }
    requires reset { (B.state board.old).cores ≡ (fitted_with (B.state board.old).shape (B.state board.old)).cores }
    requires free { (B.state board.old).lists ≡ (fitted_with (B.state board.old).shape (B.state board.old)).lists }
    ensures { B.state board.new ≡ record (B.state board.old) { cores = boot_cores (checked_data checked.now) } }
{
    let config = checked.config();
    for core in 0..config.platform.cores.len() {
        if let Some(start) = start_of(config, core as u8) {
            board.reset_core(core as u8, start, 0);
        }
    }
}

/// Where a core begins, if it is the first of its VM.
fn start_of(config: &Config, core: u8) -> Option<u64>
    ensures { result ≡ start_of (owner (config_data config.now) core) core }
{
    let vm = owner(config, core)?;
    if virtual_core(vm, core) == Some(0) {
        Some(vm.start)
    } else {
        None
    }
}
