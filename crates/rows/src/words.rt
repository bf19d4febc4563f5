// What 16-bit pixels have of their own, for speed: the sums of their taps and of their pairs.
pub mod between;
pub mod pairs;
pub mod pixel;
pub mod sums;
pub mod taps;
