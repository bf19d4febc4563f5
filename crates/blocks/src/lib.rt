// Block kernels, windows and orders, over the contracts of the rows. Both sets of pixels have one text, generic over `sample::Sample`.
#![tactic(auto)]

pub mod bilinear;
pub mod blend;
pub mod bytes;
pub mod combine;
pub mod copy;
pub mod edge;
pub mod frame;
pub mod groups;
pub mod numbers;
pub mod order;
pub mod plane_row;
pub mod refuse;
pub mod sample;
pub mod scaled;
pub mod search;
pub mod shear;
pub mod source;
pub mod subpel;
pub mod w_mask;
pub mod warp;
pub mod window;
pub mod words;
