// What the depths of 16-bit pixels have of their own.
pub mod depth;
