ghost use Rattle.std.specs.Prelude.{◌≡◌, ℕ, List, [], ◌∷◌};
ghost use Rattle.a64_state.specs.Registers.{x_of};
ghost use Rattle.board.specs.Machine.{core_at};
ghost use Rattle.vgic_table.specs.Changes.{made_pending};
ghost use Rattle.vgic_table.specs.Interrupts.{quiet_interrupts};
ghost use Rattle.vm_model.specs.Flat.{Rang, Step, Wrote, flat_run};
ghost use Rattle.vm_model.specs.Boot.{boot};
ghost use Rattle.vm_model.specs.Lone.{view};
ghost use Rattle.vm_model.specs.Apart.{IsApart, IsGranular};
ghost use Rattle.vm_model.specs.Pair.{pair, overlapping, vm_a, vm_b, AreFit, storing, ringing, ring_turns, waiting, turns};

/// Two VMs that share a window are apart from each other, whatever their images are, if each fits its place. So the laws
/// of this crate speak of them. The function does nothing; its contract is the law.
pub fn the_pair_is_apart()
    ensures a { (a b : List ℕ) → AreFit a b → IsApart pair (a ∷ b ∷ []) 0 vm_a }
    ensures b { (a b : List ℕ) → AreFit a b → IsApart pair (a ∷ b ∷ []) 1 vm_b }
    ensures granular_a { IsGranular pair vm_a }
    ensures granular_b { IsGranular pair vm_b }
{}

/// A VM isn't apart from one that may store to memory of it that is no window. The function does nothing; its contract
/// is the law.
pub fn an_overlap_is_not_apart()
    ensures { (images : List (List ℕ)) → IsApart overlapping images 0 vm_a → ⊥ }
{}

/// By the definitions, what VM b sees of a run in which VM a stores a byte to the window and one to memory of its own: the
/// first byte, where it came, and its own step; and what VM a sees: its own steps. The function does nothing.
pub fn what_the_pair_sees()
    ensures b { view pair (boot pair (storing ∷ waiting ∷ [])) 1 turns ≡ Wrote ((0x180000, 7) ∷ []) ∷ Step 1 3 ∷ [] }
    ensures a { view pair (boot pair (storing ∷ waiting ∷ [])) 0 turns
        ≡ Step 0 0 ∷ Step 0 1 ∷ Step 0 2 ∷ Step 0 4 ∷ Step 0 5 ∷ [] }
{}

/// By the definitions, a ring of VM a on the memory of both, of its second event: the number that VM b's window has for it is
/// pending in VM b, and nothing is in VM a; and VM b sees the ring, where it came. The function does nothing.
pub fn what_the_pair_rings()
    ensures pending { let f = flat_run pair (boot pair (ringing ∷ waiting ∷ [])) ring_turns in
        f.tables 1 ≡ made_pending (quiet_interrupts 1) 0 61 }
    ensures caller { let f = flat_run pair (boot pair (ringing ∷ waiting ∷ [])) ring_turns in f.tables 0 ≡ quiet_interrupts 1 }
    ensures answer { let f = flat_run pair (boot pair (ringing ∷ waiting ∷ [])) ring_turns in x_of (core_at f.cores 0) 0 ≡ 0 }
    ensures view { view pair (boot pair (ringing ∷ waiting ∷ [])) 1 ring_turns ≡ Rang 0 1 ∷ [] }
{}
