ghost use Rattle.std.specs.Prelude.{◌≡◌, [], ◌∷◌, ◌++◌, IfOk, string_bytes, OnOk};
ghost use Rattle.radio_watch.specs.Report.{entry_text, report_text};

use crate::entry::Entry;
use std::alloc::{AllocError, Global};

// Adds an entry's text to a report, on a line of its own.
fn add_entry(report: &mut String, entry: &Entry) -> Result<(), AllocError>
    ensures { OnOk result
        (string_bytes report.new ≡ string_bytes report.old ++ (entry_text entry.now ++ 10 ∷ [])) }
{
    match entry {
        Ok(event) => writeln!(report, "{event}"),
        Err(unreadable) => writeln!(report, "{unreadable}"),
    }
}

/// The report on the entries: the text of each, on a line of its own.
pub fn report(heap: Global, entries: &[Entry]) -> Result<String, AllocError>
    ensures { IfOk result (λ t. string_bytes t ≡ report_text entries.now) }
{
    let mut text = String::new(heap);
    for entry in entries {
        add_entry(&mut text, entry)?;
    }
    Ok(text)
}

#[cfg(test)]
mod tests {
    use super::*;
    use crate::entry::Unreadable;
    use call_sheet::call::Event;
    use std::test::Fail;

    #[test]
    fn writes_reports(rt: HostRuntime) -> Result<(), Fail> {
        let answer = None;
        let event = Event::OnOverdue { second: 7, answer };
        let entries = [Ok(event), Err(Unreadable { number: 3 })];
        let text = report(rt.alloc(), &entries)?;
        assert_eq!(rt; text.as_str(), "none\nscript line 3 cannot be read\n");
        let empty = report(rt.alloc(), &[])?;
        assert_eq!(rt; empty.as_str(), "");
        Ok(())
    }
}
