#![tactic(auto)]

#[cfg(test)]
mod tests {
    use std::test::Fail;
    use trace::fault::{Fault, Stop};
    use trace::reader::Reader;
    use trace::reading::read_record;
    use trace::records::Record;
    use trace::whole::{ReadError, read_trace};
    use trace::writing::{write_record, write_trace};
    use trace_text::convert::{text_of_trace, trace_of_text};
    use trace_text::text::{TextError, read_text, write_text};

    // A worked trace: two vessels enter, and their order is written at 0, at 2 and at 7 seconds.
    const WORKED: [u8; 45] = [
        0x46, 0x57, 0x54, 0x00, 0x01, // the header
        0x45, 0x00, 0x07, 0x00, 0x00, 0x00, 0x00, 0x00, 0x03, // vessel 7 enters at 0 with 3
        0x45, 0x00, 0x03, 0x00, 0x00, 0x00, 0x0A, 0x00, 0x01, // vessel 3 enters at 10 with 1
        0x51, // the order
        0x41, 0x00, 0x00, 0x00, 0x04, 0x00, 0x02, 0x00, 0x04, // by 4 and 2/4 seconds
        0x51, // the order
        0x41, 0x00, 0x00, 0x00, 0x05, 0x00, 0x00, 0x00, 0x01, // by 5 seconds
        0x51, // the order
        0x5A, // the end
    ];

    fn enter(number: u16, position: i32, speed: i16) -> Record {
        Record::Enter {
            number,
            position,
            speed,
        }
    }

    fn steer(number: u16, speed: i16) -> Record {
        Record::Steer { number, speed }
    }

    fn advance(seconds: u32, numerator: u16, denominator: u16) -> Record {
        Record::Advance {
            seconds,
            numerator,
            denominator,
        }
    }

    // The steps of the worked trace: each record with its place.
    fn worked_steps() -> [(usize, Record); 8] {
        [
            (5, enter(7, 0, 3)),
            (14, enter(3, 10, 1)),
            (23, Record::Order),
            (24, advance(4, 2, 4)),
            (33, Record::Order),
            (34, advance(5, 0, 1)),
            (43, Record::Order),
            (44, Record::End),
        ]
    }

    #[test]
    fn reads_and_writes_records(rt: HostRuntime) -> Result<(), Fail> {
        let examples: [(Record, &[u8]); 8] = [
            (enter(7, 0, 3), b"E\x00\x07\x00\x00\x00\x00\x00\x03"),
            (enter(65535, -2, -3), b"E\xFF\xFF\xFF\xFF\xFF\xFE\xFF\xFD"),
            (
                enter(258, -2147483648, 32767),
                b"E\x01\x02\x80\x00\x00\x00\x7F\xFF",
            ),
            (Record::Leave { number: 513 }, b"L\x02\x01"),
            (steer(1, -32768), b"S\x00\x01\x80\x00"),
            (
                advance(4278190081, 258, 772),
                b"A\xFF\x00\x00\x01\x01\x02\x03\x04",
            ),
            (Record::Order, b"Q"),
            (Record::End, b"Z"),
        ];
        for (record, bytes) in examples {
            assert_eq!(rt; read_record(bytes), Ok((record, &[][..])));
            let mut written = Vec::new(rt.alloc());
            write_record(record, &mut written)?;
            assert_eq!(rt; written.as_slice(), bytes);
        }
        Ok(())
    }

    #[test]
    fn reads_and_writes_the_worked_trace(rt: HostRuntime) -> Result<(), Fail> {
        let mut reader = Reader::new(&WORKED).ok().ok_or("the header is sound")?;
        let mut records = Vec::new(rt.alloc());
        for step in worked_steps() {
            assert_eq!(rt; reader.next(), Some(Ok(step)));
            records.push(step.1)?;
        }
        assert_eq!(rt; reader.next(), None);
        let read = read_trace(rt.alloc(), &WORKED).ok().ok_or("it is read")?;
        assert_eq!(rt; read.as_slice(), records.as_slice());
        let written = write_trace(rt.alloc(), records.as_slice())?;
        assert_eq!(rt; written.as_slice(), &WORKED[..]);
        Ok(())
    }

    #[test]
    fn stops_at_faults(rt: HostRuntime) {
        let examples: [(&[u8], Fault, usize); 19] = [
            (b"", Fault::Short, 0),
            (b"FWT\x00", Fault::Short, 0),
            (b"XWT\x02", Fault::Short, 0),
            (b"FWX\x00\x01", Fault::BadMark, 0),
            (b"fWT\x00\x02", Fault::BadMark, 0),
            (b"FWT\x00\x02", Fault::BadVersion, 0),
            (b"FWT\x01\x00", Fault::BadVersion, 0),
            (b"FWT\x00\x01", Fault::Short, 5),
            (b"FWT\x00\x01Q", Fault::Short, 6),
            (b"FWT\x00\x01e", Fault::UnknownKind, 5),
            (b"FWT\x00\x01QX", Fault::UnknownKind, 6),
            (b"FWT\x00\x01E\x00\x07\x00\x00\x00\x00\x00", Fault::Short, 5),
            (b"FWT\x00\x01L\x00", Fault::Short, 5),
            (b"FWT\x00\x01QL\x00\x01S\x00\x01\x00", Fault::Short, 9),
            (b"FWT\x00\x01A\x00\x00\x00\x04\x00\x02\x00", Fault::Short, 5),
            (b"FWT\x00\x01QA", Fault::Short, 6),
            (b"FWT\x00\x01ZZ", Fault::Trailing, 6),
            (b"FWT\x00\x01QZ\x00\x00", Fault::Trailing, 7),
            (b"FWT\x00\x01L\x00\x01ZQZ", Fault::Trailing, 9),
        ];
        for (trace, fault, place) in examples {
            let stopped = ReadError::Stopped(Stop { fault, place });
            assert_eq!(rt; read_trace(rt.alloc(), trace).err(), Some(stopped));
        }
    }

    #[test]
    fn numbers_faults(rt: HostRuntime) {
        let faults = [
            Fault::Short,
            Fault::BadMark,
            Fault::BadVersion,
            Fault::UnknownKind,
            Fault::Trailing,
        ];
        for (fault, number) in faults.into_iter().zip([13, 14, 15, 16, 17]) {
            assert_eq!(rt; u8::from(fault), number);
        }
    }

    #[test]
    fn reads_and_writes_texts(rt: HostRuntime) -> Result<(), Fail> {
        let leave = Record::Leave { number: 0 };
        let examples: [(&str, &[Record]); 6] = [
            ("", &[]),
            ("end\n", &[Record::End]),
            ("order\nleave 0\n", &[Record::Order, leave]),
            (
                "enter 65535 -2147483648 32767\n",
                &[enter(65535, -2147483648, 32767)],
            ),
            (
                "steer 7 -2\nsteer 7 -32768\n",
                &[steer(7, -2), steer(7, -32768)],
            ),
            (
                "advance 4294967295 0/10\nadvance 4 2/4\n",
                &[advance(4294967295, 0, 10), advance(4, 2, 4)],
            ),
        ];
        for (text, records) in examples {
            let read = read_text(rt.alloc(), text.as_bytes());
            let read = read.ok().ok_or("the text is read")?;
            assert_eq!(rt; read.as_slice(), records);
            let written = write_text(rt.alloc(), records)?;
            assert_eq!(rt; written.as_str(), text);
        }
        Ok(())
    }

    #[test]
    fn stops_at_unreadable_lines(rt: HostRuntime) {
        let examples: [(&str, usize); 18] = [
            ("\n", 1),
            ("order", 1),
            ("order\nend", 2),
            ("order\n\nend\n", 2),
            ("order \n", 1),
            (" order\n", 1),
            ("Order\n", 1),
            ("order\r\n", 1),
            ("leave\n", 1),
            ("leave 07\n", 1),
            ("leave +7\n", 1),
            ("leave 65536\n", 1),
            ("leave -1\n", 1),
            ("order\norder\nsteer 7 -0\n", 3),
            ("steer 7 32768\n", 1),
            ("enter 7  0 3\n", 1),
            ("enter 7 0 3 4\n", 1),
            ("advance 4 2 4\n", 1),
        ];
        for (text, number) in examples {
            let unreadable = TextError::Unreadable(number);
            let read = read_text(rt.alloc(), text.as_bytes());
            assert_eq!(rt; read.err(), Some(unreadable));
        }
    }

    #[test]
    fn turns_the_worked_trace_into_text_and_back(rt: HostRuntime) -> Result<(), Fail> {
        let lines =
            "enter 7 0 3\nenter 3 10 1\norder\nadvance 4 2/4\norder\nadvance 5 0/1\norder\nend\n";
        let text = text_of_trace(rt.alloc(), &WORKED);
        let text = text.ok().ok_or("the trace is read")?;
        assert_eq!(rt; text.as_str(), lines);
        let trace = trace_of_text(rt.alloc(), text.as_bytes());
        let trace = trace.ok().ok_or("the text is read")?;
        assert_eq!(rt; trace.as_slice(), &WORKED[..]);
        Ok(())
    }
}
