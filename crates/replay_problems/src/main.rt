// Replays the recorded lists of problems, one for each entry point over a problem, and writes a tally of each. One program, since each is compiled
// with the whole library.
#![tactic(auto)]

use replay::{Printed, Recorded, run};
use std::io;

static LISTS: [Recorded; 7] = [
    Recorded::Widths,
    Recorded::Printed(Printed::Script),
    Recorded::Sizes,
    Recorded::Printed(Printed::Hidden),
    Recorded::Printed(Printed::Let),
    Recorded::Fewest,
    Recorded::Printed(Printed::Formulas),
];

fn main(rt: HostRuntime) -> io::Result<()> {
    for list in &LISTS {
        run(&rt, list)?;
    }
    Ok(())
}
