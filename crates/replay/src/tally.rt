// Counts of accepted, of refused and of differing calls for each function, and their lines. The counts of function 0 are those of bad records,
// which have no number and so count as accepted; the last ones are those of all.
ghost use Rattle.std.specs.Prelude.{◌≤◌};

use crate::called::Called;
use std::fmt::Display;
use std::io;

// One more where it is so.
fn more(n: u32, so: bool) -> u32 {
    if !so {
        return n;
    }
    if n < 1000000000 { n + 1 } else { n }
}

// Where the counts of a function begin: those of bad records for a number that no function has.
fn first(id: u16) -> usize
    ensures { result ≤ 135 }
{
    if Called::try_from(id).is_ok() {
        3 * (id as usize)
    } else {
        0
    }
}

// Counts a call where the three counts begin at place k.
fn count_at(tally: &mut [u32; 141], k: usize, accepted: bool, same: bool)
    requires { k ≤ 138 }
{
    tally[k] = more(tally[k], accepted);
    tally[k + 1] = more(tally[k + 1], !accepted);
    tally[k + 2] = more(tally[k + 2], !same);
}

// Counts a call for its function and for all.
pub(crate) fn count(tally: &mut [u32; 141], id: u16, accepted: bool, same: bool) {
    count_at(tally, first(id), accepted, same);
    count_at(tally, 138, accepted, same);
}

// A line is written in three parts: the name, the set, the counts.
fn print_line<T: Display>(
    rt: &impl Print,
    name: &T,
    set: &str,
    accepted: u32,
    refused: u32,
    differ: u32,
) -> io::Result<()> {
    print!(rt; "{name}")?;
    print!(rt; "{set} ")?;
    let calls = u64::from(accepted) + u64::from(refused);
    println!(rt; "{calls} calls, {accepted} accepted, {refused} refused, {differ} differ")
}

// A line for each function in the list's order, then one for all calls.
pub(crate) fn print_all(rt: &impl Print, tally: &[u32; 141]) -> io::Result<()> {
    for id in 1..46 {
        if let Ok(called) = Called::try_from(id) {
            let k = 3 * (id as usize);
            print_line(
                rt,
                &called,
                called.set(),
                tally[k],
                tally[k + 1],
                tally[k + 2],
            )?;
        }
    }
    print_line(rt, &"all", "", tally[138], tally[139], tally[140])
}

pub(crate) fn print_end(rt: &impl Print, bad: u32, sum: u32) -> io::Result<()> {
    println!(rt; "{bad} bad records, sum of the list {sum}")
}
