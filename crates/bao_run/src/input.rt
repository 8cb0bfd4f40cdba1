ghost use Rattle.std.specs.Prelude.{◌≡◌, IfOk};
ghost use Rattle.outside.specs.Use.{shelf_use};
ghost use Rattle.bao_run.specs.Words.{Check, Run};
ghost use Rattle.bao_run.specs.Input.{IsAnswer, IsCheckAnswer, IsWorkload};
ghost use Rattle.bao_run.specs.Reading.{schedule_status};

use crate::config::{Packed, pack_all, pack_checked, read_checked};
use crate::fetch::fetch;
use crate::images::{first_named, read_images};
use bao_types::OutOfMemory;
use bao_wellformed::{CheckError, check};
use hypervisor::Event;
use mpu_packer::PackError;
use outside::Shelf;
use report::{FileId, Status};
use schedule::{ScheduleError, Workload, make_workload, read_schedule};
use std::alloc::Global;

/// How many bytes a schedule may have.
const SCHEDULE_LIMIT: u32 = 33_554_432;

/// What a run is made of.
#[derive(Drop)]
pub struct Input {
    pub packed: Packed,
    /// The image of each VM.
    pub images: Vec<Vec<u8>>,
    pub events: Vec<Event>,
}

/// Reads the configuration of a check.
pub fn read_check<S: Shelf>(alloc: Global, shelf: &mut S, config: &str) -> Result<Packed, Status>
    ensures held { S.held shelf.new ≡ S.held shelf.old }
    ensures answer { IsCheckAnswer (shelf_use S.held S.faults S.culprit shelf.old shelf.new) (Check config.now) result }
{
    let checked = read_checked(alloc, shelf, config)?;
    pack_checked(alloc, checked)
}

/// Reads the files of a run, in order: the configuration, the images and the schedule.
pub fn read_run<S: Shelf>(
    alloc: Global,
    shelf: &mut S,
    config: &str,
    schedule: &str,
) -> Result<Input, Status>
    ensures held { S.held shelf.new ≡ S.held shelf.old }
    ensures answer { IsAnswer (shelf_use S.held S.faults S.culprit shelf.old shelf.new) (Run config.now schedule.now) result }
{
    let checked = read_checked(alloc, shelf, config)?;
    let packed = pack_checked(alloc, checked)?;
    let images = read_images(alloc, shelf, config, schedule, &packed.checked)?;
    let blamed = first_named(config, schedule, &packed.checked, schedule);
    let file = FileId::Schedule;
    let lines = fetch(alloc, shelf, file, blamed, schedule, SCHEDULE_LIMIT)?;
    match read_schedule(alloc, &lines, &packed.checked) {
        Ok(events) => Ok(Input {
            packed,
            images,
            events,
        }),
        Err(fault) => Err(schedule_status(fault)),
    }
}

/// Makes the generated workload of a number. Nothing but want of memory refuses it.
pub fn make_input(alloc: Global, number: u32) -> Result<Input, OutOfMemory>
    ensures { IfOk result (IsWorkload number) }
{
    let Workload {
        config,
        images,
        events,
    } = make_workload(alloc, number)?;
    let checked = match check(alloc, config) {
        Ok(checked) => checked,
        Err(CheckError::OutOfMemory) => return Err(OutOfMemory),
        Err(CheckError::Ill(_)) => unreachable!(),
    };
    match pack_all(alloc, &checked) {
        Ok(plans) => Ok(Input {
            packed: Packed { checked, plans },
            images,
            events,
        }),
        Err((_, PackError::OutOfMemory)) => Err(OutOfMemory),
        Err((_, PackError::TooMany { .. })) => unreachable!(),
    }
}

/// The status of a schedule that isn't taken.
fn schedule_status(fault: ScheduleError) -> Status
    ensures { result ≡ schedule_status fault }
{
    match fault {
        ScheduleError::Bad { line, rule } => Status::BadSchedule { line, rule },
        ScheduleError::OutOfMemory => Status::OutOfMemory,
    }
}
