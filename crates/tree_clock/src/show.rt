ghost use Rattle.std.specs.Fmt.{WritesOnOk};
ghost use Rattle.tree_clock.specs.Texts.{clock_text, pen_text, root_text, Shows};

use crate::clocks::TreeClock;
use crate::nodes::Node;
use crate::pens::TreePen;
use std::fmt;

// An id is written with no bases, an event tree with them.
#[derive(Clone, Copy)]
enum Notation {
    Id,
    Tree,
}

// Writes what stands before the two sides of a pair or a triple.
fn write_root<W: fmt::Write>(
    f: &mut fmt::Formatter<W>,
    notation: Notation,
    base: u16,
) -> fmt::Result
    ensures { WritesOnOk W.write_str_gives f.old result (root_text notation base) f.new }
{
    match notation {
        Notation::Id => f.write_str("("),
        Notation::Tree => write!(f, "({base},"),
    }
}

// Writes the tree that stands at `at`, and answers where the next one stands. It goes
// by places and not by views, since `Display` may not ask that the nodes hold a tree; where
// none stands, nothing is said of what is written. `left` is one more than the depth there may be.
fn show<W: fmt::Write>(
    nodes: &[Node],
    at: usize,
    left: u8,
    notation: Notation,
    f: &mut fmt::Formatter<W>,
) -> Result<usize, fmt::Error>
    ensures { Shows W.write_str_gives nodes.now at left notation f.old result f.new }
{
    if at >= nodes.len() || left == 0 {
        return Ok(at);
    }
    let base = nodes[at].base;
    if nodes[at].size == 1 {
        write!(f, "{base}")?;
        return Ok(at + 1);
    }
    write_root(f, notation, base)?;
    let mid = show(nodes, at + 1, left - 1, notation, f)?;
    f.write_str(",")?;
    let end = show(nodes, mid, left - 1, notation, f)?;
    f.write_str(")")?;
    Ok(end)
}

/// An id as the literature writes it, as `((1,0),0)`.
impl fmt::Display for TreePen {
    ghost output = { pen_text };

    fn fmt<W: fmt::Write>(&self, f: &mut fmt::Formatter<W>) -> fmt::Result {
        show(&self.stored.nodes, 0, 13, Notation::Id, f)?;
        Ok(())
    }
}

/// An event tree as the literature writes it, as `(0,1,0)`.
impl fmt::Display for TreeClock {
    ghost output = { clock_text };

    fn fmt<W: fmt::Write>(&self, f: &mut fmt::Formatter<W>) -> fmt::Result {
        show(&self.stored.nodes, 0, 13, Notation::Tree, f)?;
        Ok(())
    }
}
