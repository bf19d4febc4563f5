// Row arithmetic: pixels and intermediates along a row. Both sets of pixels have one text, generic over `pixel::Pixel`.
#![tactic(auto)]

pub mod bilinear;
pub mod blend;
pub mod bytes;
pub mod combine;
pub mod copy;
pub mod depth;
pub mod edge;
pub mod near;
pub mod numbers;
pub mod pixel;
pub mod scaled;
pub mod search;
pub mod subpel;
pub mod w_mask;
pub mod warp;
pub mod words;
