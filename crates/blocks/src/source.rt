// Where the rows of a source stand, after one another or, with the last row first in memory, before one another.
ghost use Rattle.std.specs.Prelude.{◌≡◌, ◌≤◌, ◌<◌, ◌+◌, ◌*◌, ◌^◌};
ghost use Rattle.blocks.specs.inner.Source.{top_down, stand_at, row_first, rows_from, lower_row, corner_of};

// The place of row 0's first pixel, and how far each next row stands after it or before it: one of the two is 0.
#[derive(Clone, Copy)]
pub struct Stand {
    pub off: usize,
    pub forth: usize,
    pub back: usize,
}

// Rows that stand a stride apart, each after the one above it.
pub fn top_down(off: usize, stride: usize) -> Stand
    ensures { result ≡ top_down off stride }
{
    Stand {
        off,
        forth: stride,
        back: 0,
    }
}

// The same rows, of which row 0 begins at another place.
pub fn stand_at(s: Stand, off: usize) -> Stand
    ensures { result ≡ stand_at s off }
{
    Stand {
        off,
        forth: s.forth,
        back: s.back,
    }
}

// Where row j begins. Two products and no test, so that a loop over rows counts on.
pub fn row_first(s: Stand, j: usize) -> usize
    requires { (j * s.back ≤ s.off) × (s.off + j * s.forth < 2 ^ 64) }
    ensures { result ≡ row_first s j }
{
    s.off + j * s.forth - j * s.back
}

// The rows from row k on.
pub fn rows_from(s: Stand, k: usize) -> Stand
    requires { (k * s.back ≤ s.off) × (s.off + k * s.forth < 2 ^ 64) }
    ensures { result ≡ rows_from s k }
{
    let off = row_first(s, k);
    Stand {
        off,
        forth: s.forth,
        back: s.back,
    }
}

// The rows from the lower of rows 0 and 1 in memory on: each row of these and the next in memory are two rows of the source that stand below one another.
pub fn lower_row(s: Stand) -> Stand
    requires { s.back ≤ s.off }
    ensures { result ≡ lower_row s }
{
    Stand {
        off: s.off - s.back,
        forth: s.forth,
        back: s.back,
    }
}

// The rows from three above row 0 on, three columns to the left: where a block's margin of three begins.
pub fn corner(s: Stand) -> Stand
    requires { (3 * s.forth + 3 ≤ s.off + 3 * s.back) × (s.off + 3 * s.back < 2 ^ 64) }
    ensures { result ≡ corner_of s }
{
    Stand {
        off: s.off + 3 * s.back - (3 * s.forth + 3),
        forth: s.forth,
        back: s.back,
    }
}
