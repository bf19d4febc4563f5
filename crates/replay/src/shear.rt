// Replays calls of resolve_divisor_32, get_shear_params and set_affine_mv2d.
ghost use Rattle.std.specs.Prelude.{◌≤◌};

use crate::list::{ROOM, UNSET, int, is_due, short, word};
use crate::rooms::fill;
use blocks::shear::{hv_get_shear_params, hv_resolve_divisor_32, hv_set_affine_mv2d};

// A matrix whose first entry is number k.
fn matrix_at(r: &[u8], k: u8) -> [i32; 6]
    requires { k ≤ 100 }
{
    [
        int(r, k),
        int(r, k + 1),
        int(r, k + 2),
        int(r, k + 3),
        int(r, k + 4),
        int(r, k + 5),
    ]
}

#[inline(never)]
pub(crate) fn resolve_divisor_32(r: &[u8]) -> bool {
    let mut recip = [0; ROOM];
    let n = fill(r, 0, &mut recip);
    let mut y = UNSET;
    let mut shift = UNSET;
    let number = hv_resolve_divisor_32(word(r, 0), &recip[..n], &mut y, &mut shift);
    is_due(r, number) & (y == int(r, 1)) & (shift == int(r, 2))
}

#[inline(never)]
pub(crate) fn get_shear_params(r: &[u8]) -> bool {
    let mut matrix = matrix_at(r, 0);
    let mut abcd = [short(r, 6), short(r, 7), short(r, 8), short(r, 9)];
    let mut affine = int(r, 10);
    let mut recip = [0; ROOM];
    let n = fill(r, 0, &mut recip);
    let number = hv_get_shear_params(&mut matrix, &mut abcd, &mut affine, &recip[..n]);
    let shears = [short(r, 17), short(r, 18), short(r, 19), short(r, 20)];
    let record = (matrix == matrix_at(r, 11)) & (abcd == shears);
    is_due(r, number) & record & (affine == int(r, 21))
}

pub(crate) fn set_affine_mv2d(r: &[u8]) -> bool {
    let mut matrix = matrix_at(r, 4);
    let number = hv_set_affine_mv2d(
        int(r, 0),
        int(r, 1),
        int(r, 2),
        int(r, 3),
        &mut matrix,
        int(r, 10),
        int(r, 11),
    );
    is_due(r, number) & (matrix == matrix_at(r, 12))
}
