ghost use Rattle.std.specs.Prelude.{◌≡◌, ◌≤◌};
ghost use Rattle.board.specs.Questions.{ClockAnswer, AboardAnswer, TotalAnswer, ForemostAnswer};

use crate::board::Board;
use crate::tickets::Ticket;
use event_queue::queue::Queue;
use fairway::instant::Instant;
use kinetic::structure::Structure;

impl<S: Structure + Drop, Q: Queue<Key = Ticket> + Drop> Board<S, Q> {
    /// The clock.
    pub fn clock(&self) -> Instant
        ensures { ClockAnswer S.means Q.means self.now result }
    {
        self.clock
    }

    /// How many vessels are aboard.
    pub fn aboard(&self) -> usize
        ensures { AboardAnswer S.means Q.means self.now result }
    {
        self.structure.count()
    }

    /// How many mends there were since the board was opened.
    pub fn total(&self) -> u64
        ensures { TotalAnswer S.means Q.means self.now result }
    {
        self.total
    }

    /// The structure's load: as many rows as an advance asks for.
    pub fn load(&self) -> usize
        ensures value { result ≡ S.means.load self.now.structure }
        ensures few { result ≤ 2016 }
    {
        self.structure.load()
    }

    /// The number of the foremost vessel, or none.
    pub fn foremost(&self) -> Option<u16>
        ensures { ForemostAnswer S.means Q.means self.now result }
    {
        self.structure.foremost()
    }

    /// The structure, for questions that it alone answers.
    pub fn structure(&self) -> &S
        ensures { result.now ≡ self.now.structure }
    {
        &self.structure
    }
}
