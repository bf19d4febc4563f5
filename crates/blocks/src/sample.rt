// A pixel at the depths of its calls: 8 for bytes, 10 and 12 for pixels of sixteen bits. All blocks stand over this trait, so each has one text and one proof
// for both.
ghost use Rattle.std.specs.Prelude.{◌≡◌, true, Bool, ℤ};
ghost use Rattle.rows.specs.Numbers.{up};
ghost use Rattle.rows.specs.Depth.{bits_of, bias_of, max_of};
ghost use Rattle.blocks.specs.inner.Ready.{DepthRange, numbers_of};
ghost use Rattle.blocks.specs.bytes.Depth as bytes_depth;
ghost use Rattle.blocks.specs.words.Depth as words_depth;

use crate::refuse::DepthNumbers;
use crate::{bytes, words};
use rows::pixel::Pixel;

pub trait Sample: Pixel {
    // Whether a call's depth is one of these pixels'.
    ghost depth_ok: { ℤ → Bool };

    // The sums and the weights get a depth that they can shift by.
    fn depth_ok(depth: i32) -> bool
        ensures is { result ≡ depth_ok depth }
        ensures deep { result ≡ true → DepthRange (up depth) };

    // B, P and the largest pixel: the rows get what they rely on.
    fn depth_numbers(depth: i32) -> DepthNumbers
        requires { depth_ok depth ≡ true }
        ensures is { result ≡ numbers_of (up depth) }
        ensures bits { Self.bits_ok (bits_of (up depth)) }
        ensures bias { Self.bias_ok (bias_of (up depth)) }
        ensures max { Self.max_ok (max_of (up depth)) };
}

impl Sample for u8 {
    ghost depth_ok = { bytes_depth.depth_ok };

    fn depth_ok(depth: i32) -> bool {
        bytes::depth::depth_ok(depth)
    }

    fn depth_numbers(depth: i32) -> DepthNumbers {
        bytes::depth::depth_numbers(depth)
    }
}

impl Sample for u16 {
    ghost depth_ok = { words_depth.depth_ok };

    fn depth_ok(depth: i32) -> bool {
        words::depth::depth_ok(depth)
    }

    fn depth_numbers(depth: i32) -> DepthNumbers {
        words::depth::depth_numbers(depth)
    }
}
