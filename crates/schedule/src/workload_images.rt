//! The images of a generated workload.
ghost use Rattle.std.specs.Prelude.{◌≡◌, ◌<◌, ◌≤◌, ◌+◌, ◌*◌, ◌/◌, ◌%◌, ◌^◌, IfOk, map};
ghost use Rattle.schedule.specs.Workload.{next_state, state_after, words_with, bytes_of, image_at, for_each_below};

use crate::generator::Numbers;
use bao_types::OutOfMemory;
use std::alloc::Global;

/// The images of this many VMs.
pub(crate) fn make_images(
    alloc: Global,
    numbers: &mut Numbers,
    count: u8,
) -> Result<Vec<Vec<u8>>, OutOfMemory>
    requires { count ≤ 4 }
    ensures images { IfOk result (λ images. map (λ image. image.items) images.items ≡ for_each_below count (image_at numbers.old.state)) }
    ensures state { IfOk result (λ images. numbers.new.state ≡ state_after numbers.old.state (2 * count)) }
{
    let mut images = Vec::new(alloc);
    for v in 0..count {
        let image = make_image(alloc, numbers, v)?;
        if images.push(image).is_err() {
            return Err(OutOfMemory);
        }
    }
    Ok(images)
}

/// The image of the VM at a place.
fn make_image(alloc: Global, numbers: &mut Numbers, v: u8) -> Result<Vec<u8>, OutOfMemory>
    requires { v < 4 }
    ensures image { let first = next_state numbers.old.state in
        let second = next_state first in
        IfOk result (λ image. image.items ≡ bytes_of (words_with v (first / 2 ^ 33 % 65536) (1 + second / 2 ^ 33 % 4095))) }
    ensures state { numbers.new.state ≡ next_state (next_state numbers.old.state) }
{
    let first = numbers.draw() % 65_536;
    let step = 1 + numbers.draw() % 4_095;
    let mut bytes = Vec::new(alloc);
    for word in words_with(u32::from(v), first, step) {
        bytes.extend_from_slice(&word.to_le_bytes())?;
    }
    Ok(bytes)
}

/// The words of a VM's program, which counts from `first` in steps of `step`.
fn words_with(v: u32, first: u32, step: u32) -> [u32; 9]
    requires v { v < 4 }
    requires first { first < 65536 }
    requires step { step < 4096 }
    ensures { result ≡ words_with v first step }
{
    [
        0xd2b3_8121, // movz x1, 0x9c09, lsl 16
        0xf280_0001 + 2048 * v, // movk x1, 64 * v
        0x1000_7fc2, // adr x2, after the room
        0xd280_0000 + 32 * first, // mov x0, first
        0x9100_0000 + 1024 * step, // add x0, x0, step
        0x927d_2004, // and x4, x0, 0xff8
        0xf824_6840, // str x0, [x2, x4]
        0x3900_0020, // strb w0, [x1]
        0x17ff_fffc, // b back to the add
    ]
}
