// A pixel, a byte or a number of sixteen bits: what rows ask of it. All rows stand over this trait, so each has one text and one proof for both.
ghost use Rattle.std.specs.Prelude.{◌≡◌, true, ◌+◌, ◌-◌, ◌*◌, ◌%◌, ◌^◌, ◌<◌, ◌≤◌, List, ℕ, ℤ, pos, ◌+ℤ◌, map, length, get_or};
ghost use Rattle.std.specs.Int.Signed.{mag, shr_z};
ghost use Rattle.std.proofs.Common.{rules, sym};
ghost use Rattle.std.proofs.lemmas.List.{map-id};
ghost use Rattle.rows.specs.Numbers.{px, clip, half, low16, minus16};
ghost use Rattle.rows.specs.Places.{row_of};
ghost use Rattle.rows.specs.Subpel.{S, tapped};
ghost use Rattle.rows.specs.Bilinear.{R};
ghost use Rattle.rows.specs.inner.Bilinear.{bilin_at};
ghost use Rattle.rows.specs.inner.Scaled.{PairsFetched};
ghost use Rattle.rows.specs.inner.Subpel.{Near, Short, Rounds};
ghost use Rattle.rows.specs.inner.bytes.Pixel as bytes_pixel;
ghost use Rattle.rows.specs.inner.bytes.Sums as bytes_sums;
ghost use Rattle.rows.specs.inner.words.Pixel as words_pixel;
ghost use Rattle.rows.specs.inner.words.Sums as words_sums;

use crate::subpel::Way;
use crate::{bytes, words};

pub trait Pixel: Copy + Default {
    // The number that a pixel is, the numbers of a row of pixels, and how many pixels there are.
    ghost value: { Self → ℕ };

    ghost values: { List Self → List ℕ };

    ghost count: { ℕ };
    // The numbers of a depth that its rows are given: B, P and the largest pixel.
    ghost bits_ok: { ℕ → Type 0 };

    ghost bias_ok: { ℕ → Type 0 };

    ghost max_ok: { ℕ → Type 0 };
    // Taps whose sums, rounded by r and n, fit the near way.
    ghost near_ok: { List ℤ → (r n : ℕ) → Type 0 };

    fn to_u32(self) -> u32
        ensures is { result ≡ value self }
        ensures below { result < count }
        ensures fits { result < 65536 };

    fn from_u32(v: u32) -> Self
        requires { v < count }
        ensures { value result ≡ v };

    // The numbers of the depth, as a pixel's rule takes them.
    fn bits_of(bits: u32) -> u32
        requires { bits_ok bits }
        ensures is { result ≡ bits }
        ensures fits { (2 ≤ result) × (result ≤ 4) };

    fn bias_of(bias: u32) -> u32
        requires { bias_ok bias }
        ensures is { result ≡ bias }
        ensures fits { result ≤ 8192 };

    // The number clamped to 0..max.
    fn clip(v: i32, max: u16) -> Self
        requires { max_ok max }
        ensures { value result ≡ clip max v };

    // What stands between two pixels: the pixel of put, c being what both of its shifts add, which make one shift by 4.
    fn put_between(src: &[Self], p: usize, step: usize, f: u32, c: u16, max: u16) -> Self
        requires { (p + step < length src.now) × (f ≤ 15) × (c ≤ 15) × max_ok max }
        ensures { value result ≡ clip max (shr_z (bilin_at (px (values src.now)) p step f +ℤ pos c) 16) };

    // The intermediate of prep: r is half of 2^n.
    fn prep_between(src: &[Self], p: usize, step: usize, f: u32, r: u32, n: u32, bias: i16) -> i16
        requires { (p + step < length src.now) × (f ≤ 15) × (r ≡ half n) × (n ≤ 4) }
        ensures { result ≡ minus16 (low16 (R n (bilin_at (px (values src.now)) p step f))) bias };

    // The filter sum S: a filter's taps stand at place o, o + step, .. o + 7 step.
    fn taps(src: &[Self], o: usize, step: usize, f: &[i8]) -> i32
        requires { (o + 7 * step < length src.now) × (8 ≤ length f.now) }
        ensures is { result ≡ S f.now (λ t. px (values src.now) (o + t * step)) }
        ensures fits { mag result < 2 ^ 30 };

    // Whether a row of n pixels is too short for the near way; the same of a row of intermediates, or made of them.
    fn few(n: usize) -> bool
        ensures { result ≡ true → n < 8 };

    fn few_mids(n: usize) -> bool
        ensures { result ≡ true → n < 8 };

    // Whether a row of n pixels is made as eight at once.
    fn by_eight(n: usize) -> bool
        ensures { result ≡ true → n ≡ 8 };

    // (S + r) >> n, the near way if near says so.
    fn rounded_taps(src: &[Self], o: usize, f: &[i8; 8], near: bool, by: Way) -> i32
        requires { (o + 7 * by.step < length src.now) × Rounds by.r by.n × (near ≡ true → near_ok f.now by.r by.n) }
        ensures { result ≡ tapped f.now by.r by.n (λ t. px (values src.now) (o + t * by.step)) };

    // An intermediate from pixels, the near way if near says so.
    fn tap_mid_px(src: &[Self], o: usize, f: &[i8; 8], near: bool, by: Way, bias: i16) -> i16
        requires { (o + 7 * by.step < length src.now) × Rounds by.r by.n × (near ≡ true → Short f.now by.r by.n) }
        ensures { result ≡ minus16 (low16 (tapped f.now by.r by.n (λ t. px (values src.now) (o + t * by.step)))) bias };

    // The first pass of bilinear from a reference of another size: a row whose first pixel is at place o, by B, which is 2 or 4.
    fn scaled_bilin_row(
        mid: &mut [i16],
        src: &[Self],
        o: usize,
        pixels: &[u8; 64],
        fractions: &[u8; 64],
        bits: u32,
    )
        requires { (length mid.old ≤ 64) × (o ≤ length src.now) × PairsFetched (length src.now) o pixels.now fractions.now (length mid.old)
            × bits_ok bits × (bits % 2 ≡ 0) }
        ensures { mid.new ≡ row_of (length mid.old)
            (λ i. low16 (R (4 - bits) (bilin_at (px (values src.now)) (o + get_or pixels.now i 0) 1 (get_or fractions.now i 0)))) };

    // The numbers of a row are those of its pixels; they fit sixteen bits; intermediates may go without a bias; and near taps fit the near way wherever a row's sums are rounded.
    ghost each: { (l : List Self) → values l ≡ map value l };

    ghost count_fits: { count ≤ 2 ^ 16 };

    ghost no_bias: { bias_ok 0 };

    ghost near_fits: { (f : List ℤ) (r n : ℕ) → Short f r n → near_ok f r n };
}

impl Pixel for u8 {
    ghost value = { λ v. v };

    ghost values = { λ l. l };

    ghost count = { bytes_pixel.pixels };

    ghost bits_ok = { bytes_pixel.BitsOk };

    ghost bias_ok = { bytes_pixel.BiasOk };

    ghost max_ok = { bytes_pixel.MaxOk };

    ghost near_ok = { bytes_sums.NearOk };

    fn to_u32(self) -> u32 {
        self as u32 // a byte
    }

    fn from_u32(v: u32) -> u8 {
        v as u8
    }

    fn bits_of(bits: u32) -> u32 {
        bytes::pixel::bits_of(bits)
    }

    fn bias_of(bias: u32) -> u32 {
        bytes::pixel::bias_of(bias)
    }

    fn clip(v: i32, max: u16) -> u8 {
        bytes::pixel::clip(v, max)
    }

    fn put_between(src: &[u8], p: usize, step: usize, f: u32, c: u16, max: u16) -> u8 {
        bytes::between::put_between(src, p, step, f, c, max)
    }

    fn prep_between(src: &[u8], p: usize, step: usize, f: u32, r: u32, n: u32, bias: i16) -> i16 {
        bytes::between::prep_between(src, p, step, f, r, n, bias)
    }

    fn taps(src: &[u8], o: usize, step: usize, f: &[i8]) -> i32 {
        bytes::taps::taps(src, o, step, f)
    }

    fn few(n: usize) -> bool {
        bytes::sums::few(n)
    }

    fn few_mids(n: usize) -> bool {
        bytes::sums::few_mids(n)
    }

    fn by_eight(n: usize) -> bool {
        bytes::sums::by_eight(n)
    }

    fn rounded_taps(src: &[u8], o: usize, f: &[i8; 8], near: bool, by: Way) -> i32 {
        bytes::sums::rounded_taps(src, o, f, near, by)
    }

    fn tap_mid_px(src: &[u8], o: usize, f: &[i8; 8], near: bool, by: Way, bias: i16) -> i16 {
        bytes::sums::tap_mid_px(src, o, f, near, by, bias)
    }

    fn scaled_bilin_row(
        mid: &mut [i16],
        src: &[u8],
        o: usize,
        pixels: &[u8; 64],
        fractions: &[u8; 64],
        bits: u32,
    ) {
        bytes::pairs::scaled_bilin_row(mid, src, o, pixels, fractions, bits);
    }

    ghost each = { λ l. sym (map-id l) };

    ghost count_fits = { Prim.search rules };

    ghost no_bias = { Prim.search rules };

    ghost near_fits = { λ f r n h. h };
}

impl Pixel for u16 {
    ghost value = { λ v. v };

    ghost values = { λ l. l };

    ghost count = { words_pixel.pixels };

    ghost bits_ok = { words_pixel.BitsOk };

    ghost bias_ok = { words_pixel.BiasOk };

    ghost max_ok = { words_pixel.MaxOk };

    ghost near_ok = { words_sums.NearOk };

    fn to_u32(self) -> u32 {
        self as u32 // sixteen bits
    }

    fn from_u32(v: u32) -> u16 {
        v as u16
    }

    fn bits_of(bits: u32) -> u32 {
        words::pixel::bits_of(bits)
    }

    fn bias_of(bias: u32) -> u32 {
        words::pixel::bias_of(bias)
    }

    fn clip(v: i32, max: u16) -> u16 {
        words::pixel::clip(v, max)
    }

    fn put_between(src: &[u16], p: usize, step: usize, f: u32, c: u16, max: u16) -> u16 {
        words::between::put_between(src, p, step, f, c, max)
    }

    fn prep_between(src: &[u16], p: usize, step: usize, f: u32, r: u32, n: u32, bias: i16) -> i16 {
        words::between::prep_between(src, p, step, f, r, n, bias)
    }

    fn taps(src: &[u16], o: usize, step: usize, f: &[i8]) -> i32 {
        words::taps::taps(src, o, step, f)
    }

    fn few(n: usize) -> bool {
        words::sums::few(n)
    }

    fn few_mids(n: usize) -> bool {
        words::sums::few_mids(n)
    }

    fn by_eight(n: usize) -> bool {
        words::sums::by_eight(n)
    }

    fn rounded_taps(src: &[u16], o: usize, f: &[i8; 8], near: bool, by: Way) -> i32 {
        words::sums::rounded_taps(src, o, f, near, by)
    }

    fn tap_mid_px(src: &[u16], o: usize, f: &[i8; 8], near: bool, by: Way, bias: i16) -> i16 {
        words::sums::tap_mid_px(src, o, f, near, by, bias)
    }

    fn scaled_bilin_row(
        mid: &mut [i16],
        src: &[u16],
        o: usize,
        pixels: &[u8; 64],
        fractions: &[u8; 64],
        bits: u32,
    ) {
        words::pairs::scaled_bilin_row(mid, src, o, pixels, fractions, bits);
    }

    ghost each = { λ l. sym (map-id l) };

    ghost count_fits = { Prim.search rules };

    ghost no_bias = { Prim.search rules };

    ghost near_fits = { λ f r n h. h.0 };
}
