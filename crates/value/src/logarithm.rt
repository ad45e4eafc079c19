// ln by fdlibm's method.
ghost use Rattle.std.specs.Prelude.{◌≡◌, ◌^◌, ◌<◌, ◌≤◌, T};
ghost use Rattle.std.specs.Float.Ieee.Positive.{positive};
ghost use Rattle.value.specs.Logarithm.{ln_sum, ln_bits, ln_positive, ln_f};

const L1: f64 = f64::from_bits(0x3FE5_5555_5555_5593);

const L2: f64 = f64::from_bits(0x3FD9_9999_9997_FA04);

const L3: f64 = f64::from_bits(0x3FD2_4924_9422_9359);

const L4: f64 = f64::from_bits(0x3FCC_71C5_1D8E_78AF);

const L5: f64 = f64::from_bits(0x3FC7_4664_96CB_03DE);

const L6: f64 = f64::from_bits(0x3FC3_9A09_D078_C69F);

const L7: f64 = f64::from_bits(0x3FC2_F112_DF3E_5244);

const HI: f64 = f64::from_bits(0x3FE6_2E42_FEE0_0000);

const LO: f64 = f64::from_bits(0x3DEA_39EF_3579_3C76);

// ln of 2ᵏ × (1 + f).
fn ln_sum(f: f64, k: f64) -> f64
    ensures { result ≡ ln_sum f k }
{
    let h = (0.5 * f) * f;
    let s = f / (2.0 + f);
    let z = s * s;
    let w = z * z;
    let t1 = w * (L2 + w * (L4 + w * L6));
    let t2 = z * (L1 + w * (L3 + w * (L5 + w * L7)));
    let r = t2 + t1;
    ((s * (h + r) + k * LO) - h) + f + k * HI
}

// ln of the double with the bits b, over 2 to the power shift. The exponent's field of b, moved by what
// lies between 3FE6A09E and 3FF00000, changes where m does, so m and k need no branch.
fn ln_bits(b: u64, shift: u64) -> f64
    requires { (b < 2 ^ 63) × (shift ≤ 54) }
    ensures { result ≡ ln_bits b shift }
{
    let moved = b / 0x1_0000_0000 + 0x9_5F62;
    let m = f64::from_bits((moved % 0x10_0000 + 0x3FE6_A09E) * 0x1_0000_0000 + b % 0x1_0000_0000);
    let k = std::num::nearest_u64_to_f64(moved / 0x10_0000)
        - std::num::nearest_u64_to_f64(1023 + shift);
    ln_sum(m - 1.0, k)
}

// ln of a finite double above zero; a subnormal is scaled by 2 to the power 54.
fn ln_positive(v: f64) -> f64
    requires { T (positive v) }
    ensures { result ≡ ln_positive v }
{
    let b = v.to_bits();
    if b < 0x10_0000_0000_0000 {
        let scaled = (v * 18014398509481984.0).to_bits();
        return ln_bits(scaled, 54);
    }
    ln_bits(b, 0)
}

// ln. +infinity gives itself, zeros −infinity, a NaN and anything below zero a NaN.
pub fn ln(x: f64) -> f64
    ensures { result ≡ ln_f x }
{
    if 0.0 < x {
        if x < f64::INFINITY {
            return ln_positive(x);
        }
        return x;
    }
    if x == 0.0 {
        return f64::NEG_INFINITY;
    }
    f64::NAN
}
