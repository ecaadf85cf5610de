use crate::stop::Stop;

const HELP: &str =
    "kivrathne: a bench that several vendors share, laid out in a plan and played from files of calls

  kivrathne play FILE     play the call file FILE, or standard input where FILE is -
  kivrathne batch FILE    run one command a line; an error is printed as a line, and the next command follows
  kivrathne help          print this text

A call file has a call on each line. Blank lines, and lines that begin with #, are passed over. Words are separated by
spaces, and numbers are decimal. The plan comes first:

  lattice compartments | contributors | grades     compartments where none is named
  vendors N                                        1 to 32, before the first table
  table ROW COL,COL.. OFFSET:LENGTH ..             families 0 to 3, then one pair of slots for each vendor (- for no column)
  open                                             ends the plan

Each line but `lattice` is answered by a line `LINE: CALL -> ANSWER`, where ANSWER is `ok` or `refused K: WHY`. A refusal
changes nothing, and the play goes on. After `open` each table is shown as a map of its 256 slots: 0 to 9 and A to V are
the vendors 0 to 31, and a dot is a slot that is nobody's.

A line that cannot be read stops the play with status 1; what was answered before stays printed.
";

pub(crate) fn help(rt: &HostRuntime) -> Result<(), Stop> {
    print!(rt; "{HELP}")?;
    Ok(())
}
