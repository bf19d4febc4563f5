// Numbers as tests and places take them.
ghost use Rattle.std.specs.Prelude.{◌≡◌, nat_abs};
ghost use Rattle.rows.specs.Numbers.{up, is_within};
ghost use Rattle.blocks.specs.Subpel.{on};

// The number, or 0 where it is below 0.
pub fn up32(v: i32) -> u32
    ensures { result ≡ up v }
{
    if v < 0 { 0 } else { v as u32 }
}

// The number, or 0 where it is below 0.
pub fn up64(v: i64) -> usize
    ensures { result ≡ up v }
{
    if v < 0 { 0 } else { v as usize }
}

// |v|
pub fn abs64(v: i64) -> u64
    ensures { result ≡ nat_abs v }
{
    if v < 0 { (-1 - v) as u64 + 1 } else { v as u64 }
}

pub fn abs32(v: i32) -> u32
    ensures { result ≡ nat_abs v }
{
    abs64(v as i64) as u32
}

// v is within ±m.
pub fn within(v: i32, m: u32) -> bool
    ensures { result ≡ is_within m v }
{
    abs32(v) <= m
}

// 1 where the fraction isn't 0, which reads a place more.
pub fn on_axis(f: i32) -> usize
    ensures { result ≡ on f }
{
    if f <= 0 { 0 } else { 1 }
}
