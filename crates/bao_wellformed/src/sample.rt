ghost use Rattle.std.specs.Prelude.{◌≡◌, ◌∷◌, [], Some};
ghost use Rattle.bao_wellformed.specs.WellFormed.{IsWellFormed, first_ill};
ghost use Rattle.bao_config.specs.Sample.{two_vms, vm_a, vm_b, all_access};

/// The sample of two VMs is well formed. A byte that two VMs have as memory is a break, and so is one that is memory of
/// one and a window of the other. The function does nothing; its contract is these rows.
pub fn rows_of_the_sample()
    ensures well_formed { IsWellFormed (two_vms 0x180000 vm_a vm_b) }
    ensures common_memory { first_ill
        (two_vms 0x180000 vm_a (record vm_b { regions = all_access 0x10ffc0 0x40000 ∷ [] }))
        ≡ Some (record {
          rule = 22;
          vm = 1;
          item = 0;
          first = record { base = 0x100000; size = 0x10000 };
          second = record { base = 0x10ffc0; size = 0x40000 };
        }) }
    ensures window_on_memory { first_ill
        (two_vms 0x148000 vm_a (record vm_b { ipcs = [] }))
        ≡ Some (record {
          rule = 22;
          vm = 1;
          item = 0;
          first = record { base = 0x148000; size = 0x1000 };
          second = record { base = 0x140000; size = 0x10000 };
        }) }
    // A guard over the common byte: the byte is the one VM's alone.
    ensures guarded { IsWellFormed
        (two_vms 0x180000 vm_a (record vm_b {
          regions = all_access 0x10ffc0 0x40000 ∷ [];
          guards = record { base = 0x10ffc0; size = 64 } ∷ [];
        })) }
{}
