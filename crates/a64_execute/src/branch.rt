//! Branches: where PC goes, and the link.

ghost use Rattle.std.specs.Prelude.{◌≡◌, ◌^◌, ◌<◌};
ghost use Rattle.a64_execute.specs.Branch.{advanced, target_of, with_link, at_target_if};

use a64_state::Core;

/// PC goes to the next instruction.
pub(crate) fn advance(core: &mut Core)
    ensures { core.new ≡ advanced core.old }
{
    core.pc = core.pc.wrapping_add(4);
}

/// The address at an offset in words from the instruction.
pub(crate) fn target(core: &Core, offset: u64) -> u64
    ensures { result ≡ target_of core.now offset }
{
    core.pc.wrapping_add(offset.wrapping_mul(4))
}

/// PC goes to an address, and with a link X30 becomes the address of the next instruction.
pub(crate) fn jump(core: &mut Core, link: bool, target: u64)
    requires { target < 2 ^ 64 }
    ensures { core.new ≡ record (with_link link core.old) { pc = target } }
{
    if link {
        core.write_x(30, core.pc.wrapping_add(4));
    }
    core.pc = target;
}

/// PC goes to an offset in words where the branch is taken, else to the next instruction.
pub(crate) fn branch_if(core: &mut Core, taken: bool, offset: u64)
    ensures { core.new ≡ at_target_if taken offset core.old }
{
    core.pc = if taken {
        target(core, offset)
    } else {
        core.pc.wrapping_add(4)
    };
}
