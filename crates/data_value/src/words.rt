//! Operators on words, as arithmetic on machine words that are wide enough for every intermediate number.
ghost use Rattle.std.specs.Prelude.{◌≡◌, ◌<◌, ◌≤◌, ◌^◌, ◌+◌, ◌-◌, ◌*◌};
ghost use Rattle.data_value.specs.Words.{wrap, quotient, remainder, signed_rank, shift_left, shift_right, shift_signed, is_negative, extend_signed, bits_between, top_ones};
ghost use Rattle.data_value.specs.Sorts.{IsWidth};

/// 2 to the power of a width.
fn size(w: u8) -> u128
    requires { w ≤ 64 }
    ensures { result ≡ 2 ^ w }
{
    1u128 << w
}

/// The lowest w bits of a number.
fn wrap(w: u8, x: u128) -> u64
    requires { w ≤ 64 }
    ensures { result ≡ wrap w x }
{
    (x % size(w)) as u64
}

/// The word whose bits are all set.
fn all_ones(w: u8) -> u64
    requires { w ≤ 64 }
    ensures { result ≡ 2 ^ w - 1 }
{
    (size(w) - 1) as u64
}

/// The word whose y top bits are set.
fn top_ones(w: u8, y: u8) -> u64
    requires width { w ≤ 64 }
    requires within { y ≤ w }
    ensures { result ≡ top_ones w y }
{
    (size(w) - size(w - y)) as u64
}

pub fn complement(w: u8, x: u64) -> u64
    requires width { w ≤ 64 }
    requires word { x < 2 ^ w }
    ensures { result ≡ 2 ^ w - 1 - x }
{
    all_ones(w) - x
}

pub fn neg(w: u8, x: u64) -> u64
    requires width { w ≤ 64 }
    requires word { x < 2 ^ w }
    ensures { result ≡ wrap w (2 ^ w - x) }
{
    wrap(w, size(w) - x as u128)
}

pub fn add(w: u8, x: u64, y: u64) -> u64
    requires { w ≤ 64 }
    ensures { result ≡ wrap w (x + y) }
{
    wrap(w, x as u128 + y as u128)
}

pub fn sub(w: u8, x: u64, y: u64) -> u64
    requires width { w ≤ 64 }
    requires word { y < 2 ^ w }
    ensures { result ≡ wrap w (x + 2 ^ w - y) }
{
    wrap(w, x as u128 + size(w) - y as u128)
}

pub fn mul(w: u8, x: u64, y: u64) -> u64
    requires { w ≤ 64 }
    ensures { result ≡ wrap w (x * y) }
{
    wrap(w, x as u128 * y as u128)
}

pub fn udiv(w: u8, x: u64, y: u64) -> u64
    requires { w ≤ 64 }
    ensures { result ≡ quotient w x y }
{
    if y == 0 { all_ones(w) } else { x / y }
}

pub fn urem(x: u64, y: u64) -> u64
    ensures { result ≡ remainder x y }
{
    if y == 0 { x } else { x % y }
}

pub fn shl(w: u8, x: u64, y: u64) -> u64
    requires { IsWidth w }
    ensures { result ≡ shift_left w x y }
{
    if y >= w as u64 {
        return 0;
    }
    wrap(w, x as u128 * size(y as u8))
}

pub fn lshr(w: u8, x: u64, y: u64) -> u64
    requires { IsWidth w }
    ensures { result ≡ shift_right w x y }
{
    if y < w as u64 { x >> y } else { 0 }
}

pub fn ashr(w: u8, x: u64, y: u64) -> u64
    requires width { IsWidth w }
    requires word { x < 2 ^ w }
    ensures { result ≡ shift_signed w x y }
{
    let shifted = lshr(w, x, y);
    if !is_negative(w, x) {
        shifted
    } else if y < w as u64 {
        shifted + top_ones(w, y as u8)
    } else {
        all_ones(w)
    }
}

fn is_negative(w: u8, x: u64) -> bool
    requires { IsWidth w }
    ensures { result ≡ is_negative w x }
{
    size(w - 1) <= x as u128
}

/// A number that is in the unsigned order of words where the word is in the signed one.
pub fn signed_rank(w: u8, x: u64) -> u64
    requires width { IsWidth w }
    requires word { x < 2 ^ w }
    ensures { result ≡ signed_rank w x }
{
    let half = size(w - 1) as u64;
    if is_negative(w, x) {
        x - half
    } else {
        x + half
    }
}

pub fn concat(v: u8, x: u64, w: u8, y: u64) -> u64
    requires width { v + w ≤ 64 }
    requires high { x < 2 ^ v }
    requires low { y < 2 ^ w }
    ensures { result ≡ x * 2 ^ w + y }
{
    (x as u128 * size(w) + y as u128) as u64
}

pub fn extract(hi: u8, lo: u8, x: u64) -> u64
    requires order { lo ≤ hi }
    requires within { hi < 64 }
    ensures { result ≡ bits_between hi lo x }
{
    wrap(hi - lo + 1, (x >> lo) as u128)
}

pub fn sext(w: u8, n: u8, x: u64) -> u64
    requires width { IsWidth w }
    requires longer { w ≤ n }
    requires within { n ≤ 64 }
    requires word { x < 2 ^ w }
    ensures { result ≡ extend_signed w n x }
{
    let copies = top_ones(n, n - w);
    if is_negative(w, x) { x + copies } else { x }
}
