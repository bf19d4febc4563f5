// What C calls of blocks' shear. Made from crates/blocks by tools/exports: change that.
ghost use Rattle.std.specs.Prelude.{◌≡◌};
ghost use Rattle.blocks.specs.Shear.{divisor_of, ShearAnswer, AffineMvAnswer};
ghost use Rattle.blocks.specs.declared.shear.Divisor.{Divisor};

use blocks::shear;

#[unsafe(no_mangle)]
pub extern "C" fn hv_resolve_divisor_32(d: u32, recip: &[u16], y: &mut i32, shift: &mut i32) -> u32
    ensures { ◌≡◌ {A = Divisor} (record { number = result; y = y.new; shift = shift.new }) (divisor_of d recip.now) }
{
    shear::hv_resolve_divisor_32(d, recip, y, shift)
}

#[unsafe(no_mangle)]
pub extern "C" fn hv_get_shear_params(
    matrix: &mut [i32; 6],
    abcd: &mut [i16; 4],
    affine: &mut i32,
    recip: &[u16],
) -> u32
    ensures { ShearAnswer (record { matrix = matrix.entry.now; abcd = abcd.old; affine = affine.old }) recip.now
        result (record { matrix = matrix.exit.now; abcd = abcd.new; affine = affine.new }) }
{
    shear::hv_get_shear_params(matrix, abcd, affine, recip)
}

#[unsafe(no_mangle)]
pub extern "C" fn hv_set_affine_mv2d(
    bw4: i32,
    bh4: i32,
    mv_x: i32,
    mv_y: i32,
    matrix: &mut [i32; 6],
    bx4: i32,
    by4: i32,
) -> u32
    ensures { AffineMvAnswer bw4 bh4 mv_x mv_y matrix.old bx4 by4 result matrix.new }
{
    shear::hv_set_affine_mv2d(bw4, bh4, mv_x, mv_y, matrix, bx4, by4)
}
