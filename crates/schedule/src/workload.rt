//! A generated workload: what the benchmark runs.
ghost use Rattle.std.specs.Prelude.{◌≡◌, ◌<◌, ◌≤◌, IfOk, map};
ghost use Rattle.bao_config.specs.Config.{config_data};
ghost use Rattle.schedule.specs.Workload.{event_count, event_with, for_each_below, draws, workload_config, workload_images, workload_events};

use crate::generator::Numbers;
use crate::workload_config::make_config;
use crate::workload_images::make_images;
use bao_config::Config;
use bao_types::OutOfMemory;
use hypervisor::Event;
use std::alloc::Global;

/// How many events there are.
const EVENTS: u64 = 200_000;

/// A configuration, an image for each of its VMs, in their order, and events.
#[derive(Debug, Drop)]
pub struct Workload {
    pub config: Config,
    pub images: Vec<Vec<u8>>,
    pub events: Vec<Event>,
}

/// The workload of a number: two, three or four VMs, by the rest that the number leaves at 3, each with a core, a port and
/// memory of its own and a program that counts, stores what it counted and writes it to the port, and 200,000 events, of
/// which about one in 16 is an input. All but the rest comes from numbers that are drawn one after the other.
///
/// # Errors
///
/// Want of memory alone.
#[tactic(auto, unfolding(crate::specs::Workload::workload_config, crate::specs::Workload::workload_images))]
pub fn make_workload(alloc: Global, n: u32) -> Result<Workload, OutOfMemory>
    ensures config { IfOk result (λ made. config_data made.config ≡ workload_config n) }
    ensures images { IfOk result (λ made. map (λ image. image.items) made.images.items ≡ workload_images n) }
    ensures events { IfOk result (λ made. made.events.items ≡ workload_events n) }
{
    let count = 2 + (n % 3) as u8;
    let mut numbers = Numbers {
        state: u64::from(n),
    };
    let images = make_images(alloc, &mut numbers, count)?;
    let events = make_events(alloc, &mut numbers, count)?;
    Ok(Workload {
        config: make_config(alloc, count)?,
        images,
        events,
    })
}

/// The events of this many cores.
fn make_events(alloc: Global, numbers: &mut Numbers, count: u8) -> Result<Vec<Event>, OutOfMemory>
    requires few { 2 ≤ count }
    requires many { count ≤ 4 }
    ensures { let start = numbers.old.state in
        IfOk result (λ events. events.items ≡ for_each_below event_count (λ number. event_with count number (draws start number))) }
{
    let mut events = Vec::new(alloc);
    for number in 0..EVENTS {
        let event = event_with(count, number, numbers.draw());
        if events.push(event).is_err() {
            return Err(OutOfMemory);
        }
    }
    Ok(events)
}

/// The event with this number, for which `drawn` was drawn.
fn event_with(count: u8, number: u64, drawn: u32) -> Event
    requires few { 2 ≤ count }
    requires many { count ≤ 4 }
    ensures { result ≡ event_with count number drawn }
{
    let place = (drawn / 16 % u32::from(count)) as u8;
    if drawn % 16 == 15 {
        Event::Input {
            port: place,
            byte: (drawn / 64 % 256) as u8,
        }
    } else {
        Event::Step {
            core: place,
            count: number,
        }
    }
}
