ghost use Rattle.vgic_emul.specs.Laws.{ChangesItsOwn, LooksAtItsOwn};

/// The law of an access to the frames of one VM among several: it looks at that VM's table alone, so where two worlds
/// have the same table there, answer and table afterwards are the same; and every other VM's table stays.
pub fn an_access_is_its_vms_alone()
    ensures looks { LooksAtItsOwn }
    ensures changes { ChangesItsOwn }
{}
