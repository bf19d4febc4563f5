// What C calls: each function hv_X of crates/blocks, at each set of pixels that it is for, with its clauses. Made by tools/exports.
#![tactic(auto)]

mod bytes;
mod shear;
mod words;
