ghost use Rattle.std.specs.Prelude.{◌≡◌, ◌<◌, ◌≤◌, ◌==◌, ◌||◌, ℕ, Bool, true, false, List, find, min, None, replicate};
ghost use Rattle.bao_types.specs.Controller.{id_end};
ghost use Rattle.bao_types.specs.IfaceRegs.{IfaceData};
ghost use Rattle.bao_types.specs.ListReg.{free_registers, ListRegData, lists_at};
ghost use Rattle.vgic_iface.specs.Interface.{best_listed, holds, is_unlisted};
ghost use Rattle.vgic_table.specs.Changes.{made_inactive, made_pending, pended_at};
ghost use Rattle.vgic_table.specs.Cores.{IsCoreOf, joined_cores};
ghost use Rattle.vgic_table.specs.CoresLaws.{CoreAcknowledges, CoreCollects, CoreEnds, CoreRefills, StandFor};
ghost use Rattle.vgic_table.specs.Interrupts.{belongs, best, Interrupts, place};
ghost use Rattle.vgic_table.specs.Laws.{Acknowledges, Ends, IsFilled, Refills};
ghost use Rattle.vgic_table.specs.Registers.{joined, left_by_registers, registers, Tidy};
ghost use Rattle.vgic_table.specs.Shape.{BestIsListed, IsShaped};

/// The laws of table and list registers. Filling registers from a table loses, doubles and changes no id, and the
/// registers then signal what the core may take. The best of table and registers together is the better of their two
/// best. Where each register fits the table and no id of the table comes before the best one in them, an acknowledgement
/// by the registers is one by the interrupts as a whole; and so is an end, where that of an id in no register is made in
/// the table. After each of these, and after registers were filled again where that was due, each register fits the
/// table still.
pub fn laws_of_registers()
    ensures fill { (vm : Interrupts) (core : ℕ) → core < 8 → IsShaped vm →
        IsFilled vm (left_by_registers 4 vm core) core (registers 4 vm core) }
    ensures best { (vm : Interrupts) (core : ℕ) (lists : List ListRegData) → core < 8 → IsShaped vm → Tidy vm core lists →
        best (joined vm core lists) core ≡ min (best vm core) (best_listed lists) }
    ensures listed { (vm : Interrupts) (core : ℕ) (lists : List ListRegData) → core < 8 → IsShaped vm → Tidy vm core lists →
        BestIsListed vm core lists → best (joined vm core lists) core ≡ best_listed lists }
    ensures acknowledge { (vm : Interrupts) (core : ℕ) (iface : IfaceData) (lists : List ListRegData) → core < 8 →
        IsShaped vm → Tidy vm core lists → BestIsListed vm core lists → Acknowledges vm core iface lists }
    ensures end { (vm : Interrupts) (core id : ℕ) (lists : List ListRegData) → core < 8 → IsShaped vm →
        Tidy vm core lists → Ends vm core lists id }
    ensures refill { (vm : Interrupts) (core : ℕ) (lists : List ListRegData) → core < 8 → IsShaped vm →
        Tidy vm core lists → Refills vm core lists }
{}

/// The laws of several cores of one VM, each with registers of its own, of which one acknowledges, ends, is collected or
/// filled again, or has an id of its own changed in the table: what table and all registers stand for changes as all
/// interrupts do, and each register fits the table afterwards. Registers that are all free stand for nothing, and an id
/// of the VM is the same for all its cores.
pub fn laws_of_cores()
    ensures acknowledge { (vm : Interrupts) (all : List (List ListRegData)) (core : ℕ) (iface : IfaceData) →
        IsCoreOf vm all core → BestIsListed vm core (lists_at all core) → CoreAcknowledges vm all core iface }
    ensures end { (vm : Interrupts) (all : List (List ListRegData)) (core id : ℕ) → IsCoreOf vm all core →
        (is_unlisted (lists_at all core) id ≡ true → belongs vm core id ≡ true) → CoreEnds vm all core id }
    ensures collect { (vm : Interrupts) (all : List (List ListRegData)) (core : ℕ) → IsCoreOf vm all core → CoreCollects vm all core }
    ensures refill { (vm : Interrupts) (all : List (List ListRegData)) (core : ℕ) → IsCoreOf vm all core → CoreRefills vm all core }
    ensures pend { (vm : Interrupts) (all : List (List ListRegData)) (core id : ℕ) → IsCoreOf vm all core → id < id_end →
        belongs vm core id ≡ true → find (holds id) (lists_at all core) ≡ None →
        StandFor (made_pending (joined_cores 0 all vm) core id) all (made_pending vm core id) }
    ensures drop { (vm : Interrupts) (all : List (List ListRegData)) (core id : ℕ) → IsCoreOf vm all core → id < id_end →
        belongs vm core id ≡ true → find (holds id) (lists_at all core) ≡ None →
        StandFor (made_inactive (joined_cores 0 all vm) core id) all (made_inactive vm core id) }
    ensures free { (vm : Interrupts) (count : ℕ) → StandFor vm (replicate count free_registers) vm }
    ensures shared { (vm : Interrupts) (core id : ℕ) → 32 ≤ id →
        (made_pending vm core id ≡ made_pending vm 0 id) × (made_inactive vm core id ≡ made_inactive vm 0 id) }
{}

/// The laws of ids that are made pending together: one is the set of its place, two sets one after the other are their
/// union, and sets that are alike make the same pending. An empty set changes nothing.
pub fn laws_of_pending()
    ensures one { (vm : Interrupts) (core id : ℕ) → core < 8 → id < id_end → IsShaped vm →
        made_pending vm core id ≡ pended_at (λ p. p == place core id) vm }
    ensures both { (vm : Interrupts) (first second : ℕ → Bool) →
        pended_at first (pended_at second vm) ≡ pended_at (λ p. first p || second p) vm }
    ensures same { (vm : Interrupts) (first second : ℕ → Bool) → ((p : ℕ) → first p ≡ second p) →
        pended_at first vm ≡ pended_at second vm }
    ensures none { (vm : Interrupts) → pended_at (λ p. false) vm ≡ vm }
    ensures shaped { (vm : Interrupts) (chosen : ℕ → Bool) → IsShaped vm → IsShaped (pended_at chosen vm) }
{}
