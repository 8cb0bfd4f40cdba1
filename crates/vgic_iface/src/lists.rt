ghost use Rattle.std.specs.Prelude.{◌≡◌, ◌≤◌, ◌<◌, is_some, find};
ghost use Rattle.vgic_iface.specs.Interface.{best_listed, holds, listed_rank, made_active, made_inactive, rank_by, rank_in, with_holder};

use bao_types::ListReg;

/// The rank where no interrupt may be taken. A rank is a priority times 128, plus an id.
const NO_RANK: u16 = 32768;

/// Whether the id stands in the register.
fn holds(list: &ListReg, id: u16) -> bool
    ensures { result ≡ holds id list.now }
{
    !list.is_free() && list.id == id
}

/// The rank of the interrupt in the register.
fn rank_in(list: &ListReg) -> u16
    ensures value { result ≡ rank_in list.now }
    ensures bound { result ≤ 32768 }
{
    if list.pending && !list.active {
        u16::from(list.priority) * 128 + list.id
    } else {
        NO_RANK
    }
}

/// The rank of an id, by the first register in which it stands.
fn listed_rank(lists: &[ListReg], id: u16) -> u16
    ensures value { result ≡ listed_rank lists.now id }
    ensures bound { result ≤ 32768 }
{
    for list in lists {
        if holds(list, id) {
            return rank_in(list);
        }
    }
    NO_RANK
}

/// What a register adds to the search for the best rank: where it has something to take itself, the rank of its id.
fn rank_by(lists: &[ListReg], list: &ListReg) -> u16
    ensures value { result ≡ rank_by lists.now list.now }
    ensures above { best_listed lists.now ≤ result }
    ensures bound { result ≤ 32768 }
{
    if list.pending && !list.active {
        listed_rank(lists, list.id)
    } else {
        NO_RANK
    }
}

/// The best rank in the registers: a priority times 128, plus an id; 32768 where there is nothing to take.
pub fn best_listed(lists: &[ListReg; 4]) -> u16
    ensures value { result ≡ best_listed lists.now }
    ensures bound { result ≤ 32768 }
{
    let mut best = NO_RANK;
    for list in lists {
        best = best.min(rank_by(lists, list));
    }
    best
}

/// Makes the id active, and pending no longer, in the first register in which it stands.
pub(crate) fn make_active(lists: &mut [ListReg], id: u16)
    ensures { lists.new ≡ with_holder made_active id lists.old }
{
    for list in lists.iter_mut() {
        if holds(list, id) {
            list.pending = false;
            list.active = true;
            return;
        }
    }
}

/// Makes the id inactive in the first register in which it stands. False where it stands in none.
pub(crate) fn make_inactive(lists: &mut [ListReg], id: u16) -> bool
    ensures found { result ≡ is_some (find (holds id) lists.old) }
    ensures after { lists.new ≡ with_holder made_inactive id lists.old }
{
    for list in lists.iter_mut() {
        if holds(list, id) {
            list.active = false;
            return true;
        }
    }
    false
}
