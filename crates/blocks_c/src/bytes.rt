// A file for each family. Made by tools/exports.
mod bilinear;
mod blend;
mod combine;
mod copy;
mod edge;
mod order;
mod plane_row;
mod scaled;
mod search;
mod subpel;
mod w_mask;
mod warp;
mod window;
