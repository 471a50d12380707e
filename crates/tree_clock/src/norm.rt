ghost use Rattle.std.specs.Prelude.{◌≡◌, ◌+◌, ◌≤◌, length};
ghost use Rattle.tree_rules.specs.Events.{Event, top, norm as norm_of, Normal};
ghost use Rattle.tree_clock.specs.Flat.{Laid, Stands};

use crate::nodes::Node;

// Puts the triple of `base` and two branches that lie in `out`, the lower up to
// `mid` and the upper up to `end`, into normal form, in place, and answers its size.
pub(crate) fn close(out: &mut [Node], base: u16, mid: usize, end: usize) -> usize
    requires { (l r : Event) × Laid out.old mid end l r × Normal l × Normal r
        × (base + top l ≤ 65535) × (end ≤ 65535) }
    ensures stands { (l r : Event) → Laid out.old mid end l r → Normal l → Normal r →
        Stands out.new result (norm_of base l r) }
    ensures long { length out.new ≡ length out.old }
{
    let (l, u) = (out[1], out[mid]);
    if l.size == 1 && u.size == 1 && l.base == u.base {
        out[0] = Node {
            base: base + l.base,
            size: 1,
        };
        return 1;
    }
    let m = l.base.min(u.base);
    out[1] = Node {
        base: l.base - m,
        size: l.size,
    };
    out[mid] = Node {
        base: u.base - m,
        size: u.size,
    };
    out[0] = Node {
        base: base + m,
        size: end as u16,
    };
    end
}
