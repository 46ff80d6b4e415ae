ghost use Rattle.std.specs.Prelude.{◌≡◌};
ghost use Rattle.pairing_heap.specs.Links.{columns, bypassed, without_tree};

use crate::links::{back_of, child_of, next_of, set_back, set_child, set_next};
use crate::node::Node;
use event_queue::key::Key;

// Makes what leads from `back` to a ticket lead to the ticket's next sibling.
#[tactic(auto, using(crate::proofs::Columns::bypass_child, crate::proofs::Columns::bypass_next))]
fn bypass<K: Key>(cells: &mut [Node<K>], back: usize, ticket: usize, next: Option<usize>)
    ensures { columns cells.new ≡ bypassed (columns cells.old) back ticket next }
{
    if child_of(cells, back) == Some(ticket) {
        set_child(cells, back, next);
    } else {
        set_next(cells, back, next);
    }
}

/// Takes a ticket with the tree below it out from among its siblings.
#[tactic(auto, using(crate::proofs::Columns::cut_columns, crate::proofs::Columns::cut_nothing))]
pub fn cut<K: Key>(cells: &mut [Node<K>], ticket: usize)
    ensures { columns cells.new ≡ without_tree (columns cells.old) ticket }
{
    let next = next_of(cells, ticket);
    let Some(back) = back_of(cells, ticket) else {
        return;
    };
    bypass(cells, back, ticket, next);
    set_back(cells, next, back);
}
