ghost use Rattle.mpu_packer.specs.Laws.{GivesTheMap, HasNoFewer, HasOneList, PackingRealises};

/// Entries that realise the map of a core give each access to each byte the verdict of the map, and no list that does so has
/// fewer enabled entries than the core has runs; a core has one list of maximal runs, and its packing realises its map. The
/// function does nothing; its contract is the laws.
pub fn laws_of_packing()
    ensures verdicts { GivesTheMap }
    ensures least { HasNoFewer }
    ensures one { HasOneList }
    ensures packing { PackingRealises }
{}
