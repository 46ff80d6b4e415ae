ghost use Rattle.std.specs.Prelude.{[]};
ghost use Rattle.sorted_list.specs.Questions.{means};
ghost use Rattle.board.specs.Claims.{AsListed, PerformedOnList};
ghost use Rattle.board.specs.Everywhere.{ListedAlways};
ghost use Rattle.board.specs.History.{Past};
ghost use Rattle.board.specs.Outcomes.{Opened};

use crate::board::Board;
use crate::call::{Line, Row};
use crate::tickets::Ticket;
use event_queue::queue::Queue;
use sorted_list::list::SortedList;

impl<Q: Queue<Key = Ticket> + Drop> Board<SortedList, Q> {
    /// A board over the sorted list, opened. Over a sound queue the whole claim holds from the start.
    pub fn new_on_list(list: SortedList, queue: Q) -> Board<SortedList, Q>
        ensures opened { Opened means Q.means queue result }
        ensures past { Q.means.sound queue → Past means Q.means result [] }
        ensures listed { Q.means.sound queue → AsListed Q.means result [] }
    {
        Board::new(list, queue)
    }

    /// Opens the board. Over a sound queue the whole claim holds from there.
    pub fn open_on_list(&mut self)
        ensures opened { Opened means Q.means self.old.queue self.new }
        ensures past { Q.means.sound self.old.queue → Past means Q.means self.new [] }
        ensures listed { Q.means.sound self.old.queue → AsListed Q.means self.new [] }
    {
        self.open();
    }

    /// Opens the board, does the calls of the lines in turn and writes in each line what came of it, as `perform_all`.
    ///
    /// Over a sound queue the whole claim held of this very run, at the opening and after each call: the list was in order,
    /// and each advance answered the pairs that it turned, each once.
    pub fn perform_on_list(&mut self, lines: &mut [Line], rows: &mut [Row]) -> usize
        ensures performed { PerformedOnList Q.means self.old self.new
            lines.old lines.new rows.old rows.new result }
        ensures listed_always { ListedAlways Q.means }
    {
        self.perform_all(lines, rows)
    }
}
