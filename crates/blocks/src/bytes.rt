// What the one depth of bytes has of its own.
pub mod depth;
