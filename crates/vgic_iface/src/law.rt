ghost use Rattle.std.specs.Prelude.{◌≡◌, ◌<◌, ◌≤◌, ◌/◌, ◌^◌, ◌↔◌, ◌⊎◌, ℕ};
ghost use Rattle.std.specs.Int.{bit_at};
ghost use Rattle.vgic_iface.specs.Active.{running};
ghost use Rattle.vgic_iface.specs.Rank.{least, no_rank, rank};

/// The laws of the order of interrupts. Ranks are in the order of their priorities, and of their ids where those are
/// alike. The best rank is the least: it is the rank of an id, or there is none, and no id comes before it. The running
/// priority is an active one, and no lesser one is.
pub fn laws_of_the_interface()
    ensures order { (p q i j : ℕ) → i < 128 → j < 128 → (rank p i < rank q j) ↔ ((p < q) ⊎ ((p ≡ q) × (i < j))) }
    ensures first { (rank_at : ℕ → ℕ) (count id : ℕ) → id < count → least rank_at count ≤ rank_at id }
    ensures found { (rank_at : ℕ → ℕ) (count : ℕ) →
        (least rank_at count ≡ no_rank) ⊎ ((id : ℕ) × (id < count) × (least rank_at count ≡ rank_at id)) }
    ensures running { (active : ℕ) → 0 < active → active < 2 ^ 32 →
        (bit_at active (running active / 8) ≡ 1) × ((bit : ℕ) → bit < running active / 8 → bit_at active bit ≡ 0) }
{}
