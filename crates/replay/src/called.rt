// What the list's numbers of functions mean. Kernels whose buffers are of the same kinds stand in an enum of their own, so that what fills and compares those
// buffers takes these kernels and no others.
ghost use Rattle.std.specs.Prelude.{◌↔◌, ◌<◌, IsOk};

use std::fmt;

// What a number that no function has is read as.
#[derive(Clone, Copy, PartialEq, Eq)]
pub(crate) struct NoFunction;

// Pixels from pixels, and searches, which leave their pixels as they are.
#[derive(Clone, Copy, PartialEq, Eq)]
pub(crate) enum Pixels {
    Put,
    Morph,
    EmuEdge,
    Put8tap,
    PutBilin,
    SadNxn,
    SadRefineMv,
    WarpAffine8x8,
    Put8tapScaled,
    PutBilinScaled,
}

// Intermediates from pixels.
#[derive(Clone, Copy, PartialEq, Eq)]
pub(crate) enum Mids {
    Prep,
    Prep8tap,
    PrepBilin,
    WarpAffine8x8t,
    Prep8tapScaled,
    PrepBilinScaled,
}

// Pixels from two blocks of intermediates.
#[derive(Clone, Copy, PartialEq, Eq)]
pub(crate) enum Combined {
    Avg,
    WAvg,
    Mask,
    WMask,
}

// A function that each of the two sets has.
#[derive(Clone, Copy, PartialEq, Eq)]
pub(crate) enum Kernel {
    Pixels(Pixels),
    Mids(Mids),
    Combined(Combined),
    Blend,
}

// A function as the list calls it: of the byte set, of the 16-bit set, or without a set.
#[derive(Clone, Copy, PartialEq, Eq)]
pub(crate) enum Called {
    Bytes(Kernel),
    Words(Kernel),
    ResolveDivisor32,
    GetShearParams,
    SetAffineMv2d,
}

// The number within a set, the scaled ones being 18 to 21.
impl TryFrom<u16> for Kernel {
    type Error = NoFunction;

    ghost try_from_gives = { λ k r. IsOk r ↔ (0 < k) × (k < 22) };

    fn try_from(k: u16) -> Result<Self, NoFunction> {
        match k {
            1 => Ok(Kernel::Pixels(Pixels::Put)),
            2 => Ok(Kernel::Mids(Mids::Prep)),
            3 => Ok(Kernel::Combined(Combined::Avg)),
            4 => Ok(Kernel::Combined(Combined::WAvg)),
            5 => Ok(Kernel::Combined(Combined::Mask)),
            6 => Ok(Kernel::Blend),
            7 => Ok(Kernel::Pixels(Pixels::Morph)),
            8 => Ok(Kernel::Combined(Combined::WMask)),
            9 => Ok(Kernel::Pixels(Pixels::EmuEdge)),
            10 => Ok(Kernel::Pixels(Pixels::Put8tap)),
            11 => Ok(Kernel::Mids(Mids::Prep8tap)),
            12 => Ok(Kernel::Pixels(Pixels::PutBilin)),
            13 => Ok(Kernel::Mids(Mids::PrepBilin)),
            14 => Ok(Kernel::Pixels(Pixels::SadNxn)),
            15 => Ok(Kernel::Pixels(Pixels::SadRefineMv)),
            16 => Ok(Kernel::Pixels(Pixels::WarpAffine8x8)),
            17 => Ok(Kernel::Mids(Mids::WarpAffine8x8t)),
            18 => Ok(Kernel::Pixels(Pixels::Put8tapScaled)),
            19 => Ok(Kernel::Mids(Mids::Prep8tapScaled)),
            20 => Ok(Kernel::Pixels(Pixels::PutBilinScaled)),
            21 => Ok(Kernel::Mids(Mids::PrepBilinScaled)),
            _ => Err(NoFunction),
        }
    }
}

// The number that the list has: the scaled ones came later, so they stand after those without a set.
impl TryFrom<u16> for Called {
    type Error = NoFunction;

    ghost try_from_gives = { λ id r. IsOk r ↔ (0 < id) × (id < 46) };

    fn try_from(id: u16) -> Result<Self, NoFunction> {
        match id {
            1..=17 => Ok(Called::Bytes(Kernel::try_from(id)?)),
            18..=34 => Ok(Called::Words(Kernel::try_from(id - 17)?)),
            35 => Ok(Called::ResolveDivisor32),
            36 => Ok(Called::GetShearParams),
            37 => Ok(Called::SetAffineMv2d),
            38..=41 => Ok(Called::Bytes(Kernel::try_from(id - 20)?)),
            42..=45 => Ok(Called::Words(Kernel::try_from(id - 24)?)),
            _ => Err(NoFunction),
        }
    }
}

impl Called {
    // What the interface's name has behind the kernel's: the set, where there is one.
    pub(crate) fn set(self) -> &'static str {
        match self {
            Called::Bytes(_) => "_8bpc",
            Called::Words(_) => "_16bpc",
            Called::ResolveDivisor32 | Called::GetShearParams | Called::SetAffineMv2d => "",
        }
    }
}

// Names are the interface's, without the prefix that all have, and a function's without its set.
impl fmt::Display for Pixels {
    fn fmt<W: fmt::Write>(&self, f: &mut fmt::Formatter<W>) -> fmt::Result {
        f.write_str(match self {
            Pixels::Put => "put",
            Pixels::Morph => "morph",
            Pixels::EmuEdge => "emu_edge",
            Pixels::Put8tap => "put_8tap",
            Pixels::PutBilin => "put_bilin",
            Pixels::SadNxn => "sad_nxn",
            Pixels::SadRefineMv => "sad_refine_mv",
            Pixels::WarpAffine8x8 => "warp_affine_8x8",
            Pixels::Put8tapScaled => "put_8tap_scaled",
            Pixels::PutBilinScaled => "put_bilin_scaled",
        })
    }
}

impl fmt::Display for Mids {
    fn fmt<W: fmt::Write>(&self, f: &mut fmt::Formatter<W>) -> fmt::Result {
        f.write_str(match self {
            Mids::Prep => "prep",
            Mids::Prep8tap => "prep_8tap",
            Mids::PrepBilin => "prep_bilin",
            Mids::WarpAffine8x8t => "warp_affine_8x8t",
            Mids::Prep8tapScaled => "prep_8tap_scaled",
            Mids::PrepBilinScaled => "prep_bilin_scaled",
        })
    }
}

impl fmt::Display for Combined {
    fn fmt<W: fmt::Write>(&self, f: &mut fmt::Formatter<W>) -> fmt::Result {
        f.write_str(match self {
            Combined::Avg => "avg",
            Combined::WAvg => "w_avg",
            Combined::Mask => "mask",
            Combined::WMask => "w_mask",
        })
    }
}

impl fmt::Display for Kernel {
    fn fmt<W: fmt::Write>(&self, f: &mut fmt::Formatter<W>) -> fmt::Result {
        match self {
            Kernel::Pixels(k) => write!(f, "{k}"),
            Kernel::Mids(k) => write!(f, "{k}"),
            Kernel::Combined(k) => write!(f, "{k}"),
            Kernel::Blend => f.write_str("blend"),
        }
    }
}

impl fmt::Display for Called {
    fn fmt<W: fmt::Write>(&self, f: &mut fmt::Formatter<W>) -> fmt::Result {
        match self {
            Called::Bytes(kernel) | Called::Words(kernel) => write!(f, "{kernel}"),
            Called::ResolveDivisor32 => f.write_str("resolve_divisor_32"),
            Called::GetShearParams => f.write_str("get_shear_params"),
            Called::SetAffineMv2d => f.write_str("set_affine_mv2d"),
        }
    }
}
