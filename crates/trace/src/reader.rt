ghost use Rattle.std.specs.Prelude.{◌≡◌, ◌+◌, ◌^◌, ◌<◌, List, [], ◌∷◌, length, drop, Some, Ok, Err, MatchResult, slice_get, if◌then◌else◌};
ghost use Rattle.trace.specs.Layout.{read_header};
ghost use Rattle.trace.specs.Walks.{Step, begun, walk_at, walk};

use crate::fault::{Fault, Stop};
use crate::reading::{read_header, read_record};
use crate::records::Record;
use std::marker::Model;

// A step through a trace: a record and its place, or why the trace stops.
pub type Step = Result<(usize, Record), Stop>;

// A reader of a trace, record by record.
#[derive(Drop)]
pub struct Reader<'a> {
    // the bytes that are not read yet
    rest: &'a [u8],
    // how many bytes of the trace stand before them
    place: usize,
    // whether the last step was made
    over: bool,
}

// It is seen as the steps that are left.
impl<'a> Model for Reader<'a> {
    ghost Value = { List Step };

    ghost view = { λ r. if r.over then [] else walk_at r.place r.rest.now };

    ghost invariant = { λ r. r.place + length r.rest.now < 2 ^ 64 };
}

impl<'a> Reader<'a> {
    // Begins behind the header of a trace.
    pub fn new(trace: &'a [u8]) -> Result<Reader<'a>, Stop>
        ensures walk { MatchResult result (λ reader. walk trace.now ≡ reader) (λ stop. walk trace.now ≡ Err stop ∷ []) }
        ensures begun { MatchResult result (λ reader. begun (read_header trace.now) ≡ Ok reader) (λ stop. begun (read_header trace.now) ≡ Err stop) }
    {
        match read_header(trace) {
            Ok(rest) => Ok(Reader {
                rest,
                place: 5,
                over: false,
            }),
            Err(fault) => Err(Stop { fault, place: 0 }),
        }
    }

    // Makes the last step.
    fn close(&mut self, step: Step) -> Option<Step>
        ensures answer { result ≡ Some step }
        ensures left { self.new ≡ [] }
    {
        self.over = true;
        Some(step)
    }

    // Makes the next step. The last one is the end record, or why the trace stops; then there is none.
    pub fn next(&mut self) -> Option<Step>
        ensures answer { result ≡ slice_get self.old 0 }
        ensures left { self.new ≡ drop 1 self.old }
    {
        if self.over {
            return None;
        }
        let place = self.place;
        match read_record(self.rest) {
            Err(fault) => self.close(Err(Stop { fault, place })),
            Ok((record, rest)) => match (record, rest) {
                (Record::End, []) => self.close(Ok((place, record))),
                (Record::End, _) => self.close(Err(Stop {
                    fault: Fault::Trailing,
                    place: place + 1,
                })),
                _ => {
                    self.place += self.rest.len() - rest.len();
                    self.rest = rest;
                    Some(Ok((place, record)))
                }
            },
        }
    }
}
