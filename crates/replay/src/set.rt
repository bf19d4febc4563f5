// A set of pixels, as the list has it: its calls' depths, and where their numbers go on after them.
ghost use Rattle.std.specs.Prelude.{◌≤◌};

use crate::list::int;
use crate::rooms::Listed;
use blocks::sample::Sample;

pub(crate) trait Set: Sample + Listed {
    // Only the calls of 16-bit pixels have a depth: it is their first number.
    fn depth(r: &[u8]) -> i32;

    // Which of a record's numbers is the first after the depth.
    fn after() -> u8
        ensures { result ≤ 1 };
}

impl Set for u8 {
    fn depth(_r: &[u8]) -> i32 {
        8
    }

    fn after() -> u8 {
        0
    }
}

impl Set for u16 {
    fn depth(r: &[u8]) -> i32 {
        int(r, 0)
    }

    fn after() -> u8 {
        1
    }
}
