//! The bits of an entry for a class.
ghost use Rattle.std.specs.Prelude.{◌≡◌};
ghost use Rattle.mpu_packer.specs.Packing.{permission_of, execute_never_of, attribute_of};

use bao_types::Class;

/// AP: 0 is for EL2 alone, 1 admits guests to read and write, 3 to read.
pub(crate) fn permission_of(class: Class) -> u64
    ensures { result ≡ permission_of class }
{
    match class {
        Class::Nothing => 0,
        Class::Hyp => 0,
        Class::Guest {
            write,
            exec: _,
            port: _,
        } => if write { 1 } else { 3 },
    }
}

/// XN: 1 where the bytes may not be executed.
pub(crate) fn execute_never_of(class: Class) -> u64
    ensures { result ≡ execute_never_of class }
{
    match class {
        Class::Nothing => 1,
        Class::Hyp => 1,
        Class::Guest {
            write: _,
            exec,
            port: _,
        } => if exec { 0 } else { 1 },
    }
}

/// The attribute index: 1 for device ports.
pub(crate) fn attribute_of(class: Class) -> u64
    ensures { result ≡ attribute_of class }
{
    match class {
        Class::Nothing => 0,
        Class::Hyp => 0,
        Class::Guest {
            write: _,
            exec: _,
            port,
        } => if port { 1 } else { 0 },
    }
}
