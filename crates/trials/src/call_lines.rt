// Lines of a call file: read, printed, and read again.
#[cfg(test)]
mod tests {
    use callfile::{Command, Fault, read_line};
    use std::alloc::Global;
    use std::test::Fail;

    const LINES: [&str; 10] = [
        "lattice compartments",
        "lattice contributors",
        "lattice grades",
        "vendors 0",
        "vendors 4294967295",
        "table 1 1,2 0:4 4:4 8:4",
        "table 0 - 0:0",
        "table 3 0",
        "table 4294967295 0,1,2,3,4,5 4294967295:4294967295 0:0",
        "open",
    ];

    fn read(heap: Global, line: &str) -> Result<Command, Fail> {
        match read_line(heap, line.as_bytes()) {
            Ok(Some(command)) => Ok(command),
            _ => Err(Fail::new("the line is not read")),
        }
    }

    // What is read is printed as its line, and printed and read again it is the same command.
    #[test]
    fn printed_and_read_again(rt: HostRuntime) -> Result<(), Fail> {
        let heap = rt.alloc();
        for line in &LINES {
            let command = read(heap, line)?;
            let printed = command.to_string(heap)?;
            assert!(rt; printed.as_str() == *line);
            let again = read(heap, printed.as_str())?;
            assert!(rt; command == again);
        }
        Ok(())
    }

    // No two lines of the table are the same command.
    #[test]
    fn different_lines_differ(rt: HostRuntime) -> Result<(), Fail> {
        let heap = rt.alloc();
        for (i, one) in LINES.iter().enumerate() {
            for (j, other) in LINES.iter().enumerate() {
                let same = read(heap, one)? == read(heap, other)?;
                assert_eq!(rt; same, i == j);
            }
        }
        Ok(())
    }

    #[test]
    fn passed_over(rt: HostRuntime) -> Result<(), Fail> {
        for line in &["", " ", "   ", "#", "# vendors 3", "#vendors"] {
            match read_line(rt.alloc(), line.as_bytes()) {
                Ok(None) => {}
                _ => return Err(Fail::new("the line is not passed over")),
            }
        }
        Ok(())
    }

    fn refused(heap: Global, line: &str) -> Result<Fault, Fail> {
        match read_line(heap, line.as_bytes()) {
            Err(fault) => Ok(fault),
            Ok(_) => Err(Fail::new("the line is read")),
        }
    }

    #[test]
    fn faults(rt: HostRuntime) -> Result<(), Fail> {
        let heap = rt.alloc();
        assert!(rt; matches!(refused(heap, "close up")?, Fault::UnknownWord));
        assert!(rt; matches!(refused(heap, "Open")?, Fault::UnknownWord));
        assert!(rt; matches!(refused(heap, "vendors")?, Fault::WordMissing));
        assert!(rt; matches!(refused(heap, "table 1")?, Fault::WordMissing));
        assert!(rt; matches!(refused(heap, "vendors 1 2")?, Fault::WordLeft));
        assert!(rt; matches!(refused(heap, "vendors -1")?, Fault::NoNumber));
        assert!(rt; matches!(refused(heap, "vendors 1a")?, Fault::NoNumber));
        assert!(rt;
            matches!(
                refused(heap, "vendors 18446744073709551616")?,
                Fault::NoNumber
            )
        );
        assert!(rt; matches!(refused(heap, "vendors 4294967296")?, Fault::NumberTooLarge));
        assert!(rt; matches!(refused(heap, "table 1 1 4")?, Fault::NoPair));
        assert!(rt; matches!(refused(heap, "table 1 1 4:")?, Fault::NoNumber));
        assert!(rt; matches!(refused(heap, "table 1 1,,2 4:4")?, Fault::NoNumber));
        assert!(rt; matches!(refused(heap, "lattice chain")?, Fault::NoLattice));
        Ok(())
    }
}
