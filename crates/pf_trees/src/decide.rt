// Trees or a partition, over tables that the caller lends.
ghost use Rattle.std.specs.Prelude.{◌≡◌, ◌-◌, ◌*◌, ◌≤◌, length, replicate, true, false};
ghost use Rattle.pf_trees.specs.Trees.{AreTrees, HasFewEdges, with_ends};
ghost use Rattle.pf_trees.specs.Tables.{IsInstance, HasRoom};

use crate::cuts::begin;
use crate::grow::{free_slot, grow, number};
use crate::labels::join_marked;
use crate::packing::{Instance, Packing};
use crate::search::Room;

// Whether there are `k` trees: then `numbers` holds the number of the tree beside each edge, else `groups` the groups of vertices that
// forbid them.
pub(crate) fn decide(
    instance: Instance<'_>,
    packing: &mut Packing<'_>,
    room: &mut Room<'_>,
    chain: &mut [usize],
    groups: &mut [u32],
    numbers: &mut [i128],
) -> bool
    requires instance { IsInstance instance }
    requires enough { instance.k * (instance.n - 1) ≤ length instance.ends.now }
    requires cuts { packing.old.cuts.now ≡ replicate ((instance.k * (instance.n - 1)) * instance.n) false }
    requires slot { packing.old.slot.now ≡ replicate (instance.k * (instance.n - 1)) (length instance.ends.now) }
    requires place { packing.old.place.now ≡ replicate (length instance.ends.now) (instance.k * (instance.n - 1)) }
    requires places { HasRoom (length instance.ends.now) room.old }
    requires chain { length chain.old ≡ length instance.ends.now }
    requires groups { length groups.old ≡ instance.n }
    requires numbers { length numbers.old ≡ length instance.ends.now }
    ensures trees { result ≡ true → AreTrees (with_ends instance.entry.n instance.entry.ends.now) instance.entry.k numbers.new }
    ensures blocked { result ≡ false → HasFewEdges (with_ends instance.entry.n instance.entry.ends.now) instance.entry.k groups.new }
{
    let m = instance.ends.len();
    let total = packing.slot.len();
    let width = (instance.n - 1) as usize;
    begin(instance.n as usize, width, total, packing.cuts);
    grow(instance, packing, room, chain);
    if free_slot(packing.slot, m) < total {
        join_marked(instance.n, instance.ends, room.mark, groups);
        return false;
    }
    number(packing.place, width, total, numbers);
    true
}
