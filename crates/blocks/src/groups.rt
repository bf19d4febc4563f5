// Rows of intermediates, 64 apart, of which eight are made at a time: what both passes of a block work in.
ghost use Rattle.std.specs.Prelude.{◌≡◌, ◌+◌, ◌≤◌, min, length};
ghost use Rattle.blocks.specs.inner.Groups.{carried};

// The rows of the next group.
pub fn eight_at_most(left: usize) -> usize
    ensures { result ≡ min 8 left }
{
    if left < 8 { left } else { 8 }
}

// The n numbers after eight rows are carried over to the front.
pub fn carry(mid: &mut [i16], n: usize)
    requires { (n ≤ 512) × (512 + n ≤ length mid.old) }
    ensures { mid.new ≡ carried n mid.old }
{
    for i in 0..n {
        let v = mid[i + 512];
        mid[i] = v;
    }
}
