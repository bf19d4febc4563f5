// Replays a list of calls, each with the answer that is due: the original Rust's to accepted ones, document 01's refusal to the others. Prints for
// each function how many calls there are and how many answer something else, then how many records are bad. `oracle record` writes the list, which
// is this program's input.
//
// The list: the count of its records; then each record, its length before it. A record: the function, the number that is due, four buffers, numbers
// of eight bytes, and the values of the buffers. Everything else is two bytes wide; the least byte comes first.
// - The function: 1 to 17 for the byte set, 18 to 34 for the 16-bit set, 35 to 37 without a set; then the scaled ones, 38 to 41 for the byte set and
//   42 to 45 for the 16-bit set. Each in the order in which they are printed. 0 is none.
// - A buffer, in the interface's order (an unused one has length 0): its length; the count of the values it comes with, which repeat, and the place
//   of the first in the record; then stride, row, rows and the place of the values that are left in the first `row` columns of the first `rows`
//   rows. Other places are left as they came.
// - Numbers: the parameters that aren't buffers, a record's entries too, in the interface's order; then the results, and what a record is left with.
// - Values: one byte each for u8 and i8, two for u16 and i16.
#![tactic(auto)]

ghost use Rattle.std.specs.Prelude.{◌≡◌, ◌<◌, ◌≤◌, IfOk, OnErr, length};

use crate::called::Called;
use crate::list::{byte, due, number};
use crate::tally::{count, print_all, print_end};
use std::io::{self, Read};

mod bilinear;
mod blend;
mod called;
mod combine;
mod copy;
mod edge;
mod kernels;
mod list;
mod mask;
mod roomed;
mod rooms;
mod scaled;
mod search;
mod set;
mod shear;
mod subpel;
mod tally;
mod warp;

// Replays a call: whether it answered as the record says. A number that no function has answers nothing.
fn replayed(id: u16, r: &[u8]) -> bool {
    let Ok(called) = Called::try_from(id) else {
        return false;
    };
    match called {
        Called::Bytes(kernel) => roomed::replayed::<u8>(kernel, r),
        Called::Words(kernel) => roomed::replayed::<u16>(kernel, r),
        Called::ResolveDivisor32 => shear::resolve_divisor_32(r),
        Called::GetShearParams => shear::get_shear_params(r),
        Called::SetAffineMv2d => shear::set_affine_mv2d(r),
    }
}

// Reads until the room is full or the input ends, and answers how many bytes it read into the room's first places.
fn read_full(input: &mut impl Read, room: &mut [u8]) -> io::Result<usize>
    ensures { IfOk result (λ n. n ≤ length room.new) }
{
    // A loop by hand: a read gives as many bytes as it has, so no range counts them.
    let mut done = 0;
    while done < room.len() {
        let n = input.read(&mut room[done..])?;
        if n == 0 {
            break;
        }
        done += n;
    }
    Ok(done)
}

// The two bytes ahead, as a number: 0 where the list ends.
fn ahead(input: &mut impl Read) -> io::Result<u16> {
    let mut b = [0u8; 2];
    if read_full(input, &mut b)? == 2 {
        Ok(u16::from_le_bytes(b))
    } else {
        Ok(0)
    }
}

// Reads the next record and answers its length: 0 for one that is longer than the room or cut short.
fn next(input: &mut impl Read, room: &mut [u8]) -> io::Result<u16> {
    let len = ahead(input)?;
    let n = (len as usize).min(room.len());
    let got = read_full(input, &mut room[..n])?;
    if got == len as usize { Ok(len) } else { Ok(0) }
}

// A number that no change of a single byte leaves as it is.
fn mixed(sum: u32, r: &[u8]) -> u32
    requires { sum < 134217689 }
    ensures { result < 134217689 }
{
    let mut m = sum;
    for i in 0..r.len() {
        m = (31 * m + byte(r, i) as u32) % 134217689;
    }
    m
}

// Replays the next call, counts it, and mixes its record in. Where the list can't be read, nothing is counted.
fn step(input: &mut impl Read, tally: &mut [u32; 141], sum: u32) -> io::Result<u32>
    requires { sum < 134217689 }
    ensures below { IfOk result (λ m. m < 134217689) }
    ensures uncounted { OnErr result (tally.new ≡ tally.old) }
{
    let mut room = [0u8; 20000];
    let len = next(input, &mut room)?;
    let n = (len as usize).min(room.len());
    let r = &room[..n];
    let id = number(r);
    count(tally, id, due(r) == 0, replayed(id, r));
    Ok(mixed(sum, r))
}

fn main(rt: HostRuntime) -> io::Result<()> {
    let mut tally = [0u32; 141];
    let mut sum = 0;
    let mut input = rt.reader();
    let n = ahead(&mut input)?;
    for _ in 0..n {
        sum = step(&mut input, &mut tally, sum)?;
    }
    print_all(&rt, &tally)?;
    print_end(&rt, tally[0], sum)
}
