ghost use Rattle.std.specs.Prelude.{◌≡◌, List, [], ◌∷◌, min, map, length, take, drop};
ghost use Rattle.call_sheet.specs.declared.call.Event.{Event};
ghost use Rattle.call_sheet.specs.History.{LedTo};
ghost use Rattle.radio_watch.specs.Journal.{item_of, log_from};

use crate::entry::{Entry, Item};
use call_sheet::sheet::CallSheet;
use event_queue::queue::Queue;

// Does what an item asks for, and answers what came of it.
fn answer<Q: Queue<Key = u32>>(sheet: &mut CallSheet<Q>, item: Item) -> Entry
    ensures item { item_of result ≡ item }
    ensures history { (log : List Event) → LedTo Q.means log sheet.old.queue
        → LedTo Q.means (log_from log (result ∷ [])) sheet.new.queue }
    ensures sound { Q.means.sound sheet.old.queue → Q.means.sound sheet.new.queue }
    ensures capacity { Q.means.sound sheet.old.queue
        → Q.means.capacity sheet.new.queue ≡ Q.means.capacity sheet.old.queue }
    ensures keeps { Q.means.keeps sheet.old.queue sheet.new.queue }
{
    Ok(sheet.perform(item?))
}

/// Does the items of a script in turn, as many as the journal has lines, writes what came of each into its line, and
/// answers how many it did. The lines behind them stay. It never refuses.
pub fn keep<Q: Queue<Key = u32>>(
    sheet: &mut CallSheet<Q>,
    items: &[Item],
    journal: &mut [Entry],
) -> usize
    ensures count { result ≡ min (length items.now) (length journal.old) }
    ensures items { map item_of (take result journal.new) ≡ take result items.now }
    ensures past { drop result journal.new ≡ drop result journal.old }
    ensures history { (log : List Event) → LedTo Q.means log sheet.old.queue
        → LedTo Q.means (log_from log (take result journal.new)) sheet.new.queue }
    ensures sound { Q.means.sound sheet.old.queue → Q.means.sound sheet.new.queue }
    ensures capacity { Q.means.sound sheet.old.queue
        → Q.means.capacity sheet.new.queue ≡ Q.means.capacity sheet.old.queue }
    ensures keeps { Q.means.keeps sheet.old.queue sheet.new.queue }
{
    let count = items.len().min(journal.len());
    let asked = &items[..count];
    for (index, item) in asked.iter().enumerate() {
        journal[index] = answer(sheet, *item);
    }
    count
}
