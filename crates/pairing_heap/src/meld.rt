ghost use Rattle.pairing_heap.specs.Links.{columns};
ghost use Rattle.pairing_heap.specs.Melds.{Melds, MeldsPairs};

use crate::links::{key_of, link, next_of};
use crate::node::Node;
use event_queue::key::{Key, is_sooner};

/// Melds two trees, of which either may be none: the root whose key comes later becomes the first child of
/// the other. It answers the root.
pub fn meld<K: Key>(cells: &mut [Node<K>], a: Option<usize>, b: Option<usize>) -> Option<usize>
    ensures { Melds K.before (columns cells.old) (columns cells.new) a b result }
{
    let Some(first) = a else {
        return b;
    };
    let Some(second) = b else {
        return a;
    };
    if is_sooner(key_of(cells, second), key_of(cells, first)) {
        link(cells, second, first);
        b
    } else {
        link(cells, first, second);
        a
    }
}

/// Melds a row of siblings in two passes: each with the one after it on the way there, and these pairs,
/// from the last to the first, on the way back. It answers the root, and makes at most `fuel` pairs.
pub fn meld_pairs<K: Key>(cells: &mut [Node<K>], first: Option<usize>, fuel: usize) -> Option<usize>
    ensures { MeldsPairs K.before (columns cells.old) (columns cells.new) first fuel result }
{
    if fuel == 0 {
        return first;
    }
    let one = first?;
    let second = next_of(cells, one);
    let Some(two) = second else {
        return Some(one);
    };
    let rest = next_of(cells, two);
    let pair = meld(cells, first, second);
    let others = meld_pairs(cells, rest, fuel - 1);
    meld(cells, pair, others)
}
