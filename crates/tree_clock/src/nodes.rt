ghost use Rattle.std.specs.Prelude.{◌≡◌, ℕ, ◌/◌, ◌%◌, ◌<◌, ◌≤◌, true, ◌↔◌, length, drop, replicate};
ghost use Rattle.tree_rules.specs.Events.{Event, leaf, node};
ghost use Rattle.tree_clock.specs.Flat.{filler, Laid, Stands};

// A node of a tree that lies in an array, root first, then the lower tree, then
// the upper. `size` counts the nodes of the whole subtree, 1 for a leaf, so that
// a subtree is a part of the array wherever it stands.
#[derive(Clone, Copy, PartialEq, Eq, Debug)]
pub(crate) struct Node {
    pub(crate) base: u16,
    pub(crate) size: u16,
}

impl Node {
    // The node as one number: two nodes are then one comparison, where their fields are two.
    #[inline]
    fn word(self) -> u32
        ensures size { result / 65536 ≡ self.size }
        ensures base { result % 65536 ≡ self.base }
    {
        65536 * u32::from(self.size) + u32::from(self.base)
    }
}

// Whether two slices hold the same nodes. There is no end at the first difference, and `&=`, no `&&`:
// so four nodes are compared at once, where `==` tests one field after the other.
pub(crate) fn same_nodes(mine: &[Node], theirs: &[Node]) -> bool
    ensures { (result ≡ true) ↔ (mine.now ≡ theirs.now) }
{
    if mine.len() != theirs.len() {
        return false;
    }
    // two clocks that differ mostly do so at the root
    if mine.len() > 0 && mine[0].base != theirs[0].base {
        return false;
    }
    let mut same = true;
    for i in 0..mine.len() {
        same &= mine[i].word() == theirs[i].word();
    }
    same
}

// The limits of a tree: its nodes, and its largest value.
pub(crate) const MOST_NODES: usize = 63;

pub(crate) const MOST_VALUE: u32 = 65535;

// Room for any operation: a join of two trees has at most 125 nodes.
pub(crate) const ROOM: usize = 125;

// A tree is written to the front of a slice that the caller lends, and the function answers its size: a
// returned array is copied at every level (in prototypes join into a slice was 7 to 12 times faster). The
// slice's length and its places are bounded by each contract, since no type of ours holds it.

// Writes a leaf at the front of `out` and answers its size, 1.
pub(crate) fn leaf_into(value: u16, out: &mut [Node]) -> usize
    requires { 0 < length out.old }
    ensures stands { Stands out.new result (leaf value) }
    ensures rest { drop result out.new ≡ drop result out.old }
    ensures long { length out.new ≡ length out.old }
{
    out[0] = Node {
        base: value,
        size: 1,
    };
    1
}

// Writes the root over two branches that lie in `out` up to `end`, and answers the size.
pub(crate) fn root_into(base: u16, out: &mut [Node], end: usize) -> usize
    requires { (0 < length out.old) × (end ≤ 65535) }
    ensures stands { (mid : ℕ) (l r : Event) → Laid out.old mid end l r →
        Stands out.new result (node base l r) }
    ensures size { result ≡ end }
    ensures rest { 0 < end → drop end out.new ≡ drop end out.old }
    ensures long { length out.new ≡ length out.old }
{
    out[0] = Node {
        base,
        size: end as u16,
    };
    end
}

// Only fillers.
pub(crate) fn fillers<const N: usize>() -> [Node; N]
    ensures all { result ≡ replicate N filler }
    ensures long { length result ≡ N }
{
    [Node { base: 0, size: 0 }; N]
}
