// Calls with rooms for their buffers of a set's pixels. The rooms are arrays, so that no call can run out of memory; each kind of buffers has a function of its
// own, so that the stack has the rooms of one kind at a time.
use crate::called::{Combined, Kernel, Mids, Pixels};
use crate::list::ROOM;
use crate::set::Set;
use crate::{blend, kernels};

pub(crate) trait Roomed: Set {
    fn pixels(k: Pixels, r: &[u8]) -> bool;

    fn mids(k: Mids, r: &[u8]) -> bool;

    fn combined(k: Combined, r: &[u8]) -> bool;

    fn blend(r: &[u8]) -> bool;
}

impl Roomed for u8 {
    #[inline(never)]
    fn pixels(k: Pixels, r: &[u8]) -> bool {
        kernels::pixels::<u8>(k, r, &mut [0; ROOM], &mut [0; ROOM])
    }

    #[inline(never)]
    fn mids(k: Mids, r: &[u8]) -> bool {
        kernels::mids::<u8>(k, r, &mut [0; ROOM])
    }

    #[inline(never)]
    fn combined(k: Combined, r: &[u8]) -> bool {
        kernels::combined::<u8>(k, r, &mut [0; ROOM])
    }

    #[inline(never)]
    fn blend(r: &[u8]) -> bool {
        blend::blend::<u8>(r, &mut [0; ROOM], &mut [0; ROOM])
    }
}

impl Roomed for u16 {
    #[inline(never)]
    fn pixels(k: Pixels, r: &[u8]) -> bool {
        kernels::pixels::<u16>(k, r, &mut [0; ROOM], &mut [0; ROOM])
    }

    #[inline(never)]
    fn mids(k: Mids, r: &[u8]) -> bool {
        kernels::mids::<u16>(k, r, &mut [0; ROOM])
    }

    #[inline(never)]
    fn combined(k: Combined, r: &[u8]) -> bool {
        kernels::combined::<u16>(k, r, &mut [0; ROOM])
    }

    #[inline(never)]
    fn blend(r: &[u8]) -> bool {
        blend::blend::<u16>(r, &mut [0; ROOM], &mut [0; ROOM])
    }
}

// Replays a call of a kernel of this set: whether it answered as the record says.
pub(crate) fn replayed<P: Roomed>(kernel: Kernel, r: &[u8]) -> bool {
    match kernel {
        Kernel::Pixels(k) => P::pixels(k, r),
        Kernel::Mids(k) => P::mids(k, r),
        Kernel::Combined(k) => P::combined(k, r),
        Kernel::Blend => P::blend(r),
    }
}
