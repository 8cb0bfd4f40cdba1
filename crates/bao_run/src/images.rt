ghost use Rattle.std.specs.Prelude.{◌≡◌, unwrap_or};
ghost use Rattle.outside.specs.Use.{shelf_use};
ghost use Rattle.bao_wellformed.specs.Checked.{checked_data};
ghost use Rattle.report.specs.declared.status.FileId.TheVariants as file;
ghost use Rattle.std.specs.List.{position_from};
ghost use Rattle.std.specs.Str.{bytes_eq};
ghost use Rattle.bao_run.specs.Words.{Run};
ghost use Rattle.bao_run.specs.Input.{files_of, first_named};
ghost use Rattle.bao_config.specs.Data.{vm_data};
ghost use Rattle.bao_run.specs.Reading.{IsImagesAnswer};
ghost use Rattle.bao_run.specs.Ruling.{image_limit};

use crate::fetch::fetch;
use bao_config::Vm;
use bao_wellformed::Checked;
use outside::Shelf;
use report::{FileId, Status};
use std::alloc::Global;

/// Reads the image of each VM, in their order. An image has at most the bytes of its VM's room.
pub fn read_images<S: Shelf>(
    alloc: Global,
    shelf: &mut S,
    config: &str,
    schedule: &str,
    checked: &Checked,
) -> Result<Vec<Vec<u8>>, Status>
    ensures held { S.held shelf.new ≡ S.held shelf.old }
    ensures answer { IsImagesAnswer (shelf_use S.held S.faults S.culprit shelf.old shelf.new)
        config.now schedule.now (checked_data checked.now) result }
{
    let mut images = Vec::new(alloc);
    for (v, vm) in checked.config().vms.as_slice().iter().enumerate() {
        let name = vm.image.as_str();
        let blamed = first_named(config, schedule, checked, name);
        let file = FileId::Image(v as u8);
        let image = fetch(alloc, shelf, file, blamed, name, image_limit(vm))?;
        if images.push(image).is_err() {
            return Err(Status::OutOfMemory);
        }
    }
    Ok(images)
}

/// How many bytes the image of a VM may have.
fn image_limit(vm: &Vm) -> u32
    ensures { result ≡ image_limit (vm_data vm.now) }
{
    u32::try_from(vm.place.size).unwrap_or(u32::MAX)
}

/// The first file of a run that has this name, the schedule where no other has it.
pub fn first_named(config: &str, schedule: &str, checked: &Checked, name: &str) -> FileId
    ensures { let cfg = checked_data checked.now in
        result ≡ unwrap_or (first_named name.now (files_of (Run config.now schedule.now) cfg)) file.Schedule }
{
    if config == name {
        return FileId::Config;
    }
    match image_named(checked, name) {
        Some(v) => FileId::Image(v),
        None => FileId::Schedule,
    }
}

/// The place of the first VM whose image has this name.
fn image_named(checked: &Checked, name: &str) -> Option<u8>
    ensures { result ≡ position_from (λ vm. bytes_eq vm.image name.now) 0 (checked_data checked.now).vms }
{
    for (v, vm) in checked.config().vms.as_slice().iter().enumerate() {
        if vm.image.as_str() == name {
            return Some(v as u8);
        }
    }
    None
}
