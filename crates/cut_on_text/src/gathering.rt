//! The things that are reached from one, in order, in memory that was taken before.
ghost use Rattle.std.specs.Prelude.{◌≡◌, ◌<◌, ℕ, length};
ghost use Rattle.cut_on_text.specs.Made.{family};
ghost use Rattle.city_families.specs.Search.{InRange};

use crate::rosters::Roster;

/// Notes what is reached from the root, and nothing else, in the order of the document.
pub(crate) fn gather(graph: &Graph, root: usize, found: &mut Roster)
    requires graph { InRange graph.now (length graph.now) }
    requires root { root < length graph.now }
    requires count { found.old.count ≡ length graph.now }
    ensures { found.new ≡ record { count = length graph.now; order = family graph.now root } }
{
    found.clear();
    found.note(root);
    let mut at = 0usize;
    'reached: while at < found.order().len() {
        let next = found.order()[at];
        found.note_all(graph.row(next));
        at += 1;
    }
    found.sort();
}

use city_families::Graph;
