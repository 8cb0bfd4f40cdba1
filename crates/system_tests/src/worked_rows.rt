ghost use Rattle.std.specs.Prelude.{◌≡◌, ℕ, [], ◌∷◌, ◌++◌, slice_index, Some, codes};
ghost use Rattle.bao_config.specs.Sample.{one_vm as sample};
ghost use Rattle.board.specs.Machine.{core_at};
ghost use Rattle.vm_model.specs.Flat.{flat_run, entered_count};
ghost use Rattle.vm_model.specs.Boot.{boot};
ghost use Rattle.vm_model.specs.Lone.{stored};
ghost use Rattle.hypercalls.specs.declared.power.Power.TheVariants.{Parked};
ghost use Rattle.report.specs.Section.{power_line};
ghost use Rattle.std.specs.Fmt.{decimal};
ghost use Rattle.system_tests.specs.WorkedRows.{image, storing_image, steps, two_more};

/// By the definitions, three steps of `movz x0, #5` and a branch to itself leave X0 at 5 and PC at the branch; each step
/// is entered.
pub fn rows()
    ensures pc { (core_at (flat_run sample (boot sample (image ∷ [])) steps).cores 0).pc ≡ 1048580 }
    ensures x0 { slice_index (core_at (flat_run sample (boot sample (image ∷ [])) steps).cores 0).x 0 ≡ 5 }
    ensures entered { entered_count sample (boot sample (image ∷ [])) steps ≡ 3 }
{}

/// By the definitions, `strh w0, [x1, #2]` stores the two bytes of W0 with the least one first, and nothing else; a load of
/// the upper one then gives it back.
pub fn storing_rows()
    ensures stored { stored sample (flat_run sample (boot sample (storing_image ∷ [])) steps) 0 3
        ≡ (1081346, 0x34) ∷ (1081347, 0x12) ∷ [] }
    ensures low { (flat_run sample (flat_run sample (boot sample (storing_image ∷ [])) steps) two_more).bytes 1081346 ≡ 0x34 }
    ensures high { (flat_run sample (flat_run sample (boot sample (storing_image ∷ [])) steps) two_more).bytes 1081347 ≡ 0x12 }
    ensures behind { (flat_run sample (flat_run sample (boot sample (storing_image ∷ [])) steps) two_more).bytes 1081348 ≡ 0 }
    ensures x2 { slice_index (core_at
        (flat_run sample (flat_run sample (boot sample (storing_image ∷ [])) steps) two_more).cores 0).x 2 ≡ 0x12 }
{}

/// By the definitions, the line of a core that was parked by a read at 0x40000 where nothing is mapped, with a bit above its
/// syndrome's 32.
pub fn parked_row()
    ensures { (j : ℕ) → power_line j (Some (Parked 0x193c08004 0x40000))
        ≡ codes "core " ++ (decimal j ++ codes " parked 93c08004 0000000000040000\n") }
{}
