// Percents, and HLS colours as the Rust works them out in f64, bit for bit.
#![tactic(auto)]

ghost use Rattle.std.specs.Prelude.{◌≡◌};
ghost use Rattle.std.specs.Float.Ieee.{to_unsigned};
ghost use Rattle.hls.specs.Percent.{held, outside, percent_byte, percent_of};
ghost use Rattle.hls.specs.Turn.{modulo360};
ghost use Rattle.hls.specs.Hls.{raised, lowered, hue_to_rgb, upper, hls_bytes};
ghost use Rattle.hls.specs.Exact.{exact_hls, AllBeside};

// Clamps a percent to 0 to 100.
#[tactic(auto, using(crate::proofs::Whole::held_clamped))]
fn clamp_percent(v: i32) -> u32
    ensures { result ≡ held v }
{
    v.clamp(0, 100) as u32
}

fn percent_byte(value: i32) -> u8
    ensures { result ≡ percent_byte value }
{
    ((clamp_percent(value) * 255 + 50) / 100) as u8
}

// Whether a number is no percent, so that it is held to 0 to 100. Of HLS the lightness and the saturation are percents, the hue is none.
pub fn is_outside(value: i32) -> bool
    ensures { result ≡ outside value }
{
    !(0..=100).contains(&value)
}

// A percent's byte, and whether the number had to be held.
#[derive(Clone, Copy)]
pub struct Percent {
    pub byte: u8,
    pub held: bool,
}

// Any number is a percent: it is held to 0 to 100.
pub fn percent_to_byte(value: i32) -> Percent
    ensures { result ≡ percent_of value }
{
    Percent {
        byte: percent_byte(value),
        held: is_outside(value),
    }
}

// A turn in whole degrees, from 0 to 359.
#[tactic(auto, using(crate::proofs::Whole::modulo_is, crate::proofs::Whole::modulo_lt))]
fn rem_euclid_360(h: i32) -> u32
    ensures { result ≡ modulo360 h }
{
    h.rem_euclid(360) as u32
}

// The first of the two steps that bring a turn to 0.0 to 1.0.
fn raise(t: f64) -> f64
    ensures { result ≡ raised t }
{
    if t < 0.0 {
        return t + 1.0;
    }
    t
}

// The second of them.
fn lower(t: f64) -> f64
    ensures { result ≡ lowered t }
{
    if t > 1.0 {
        return t - 1.0;
    }
    t
}

fn hue_to_rgb(p: f64, q: f64, turn: f64) -> f64
    ensures { result ≡ hue_to_rgb p q turn }
{
    let t = lower(raise(turn));
    if t < 1.0 / 6.0 {
        return p + (q - p) * 6.0 * t;
    }
    if t < 1.0 / 2.0 {
        return q;
    }
    if t < 2.0 / 3.0 {
        return p + (q - p) * (2.0 / 3.0 - t) * 6.0;
    }
    p
}

// The larger of the two numbers between which a channel lies.
fn upper_end(lum: f64, sat: f64) -> f64
    ensures { result ≡ upper lum sat }
{
    if lum < 0.5 {
        return lum * (1.0 + sat);
    }
    lum + sat - lum * sat
}

// The Rust's `.floor().clamp(0.0, 255.0) as u8`.
fn floor_to_byte(w: f64) -> u8
    ensures { result ≡ to_unsigned 8 w }
{
    std::num::saturating_f64_to_u8(w)
}

// Two promises: the bytes are those of the f64 steps in the Rust's order, and each stands beside the
// byte of the whole-number formula.
pub fn hls_to_rgb(h: i32, l: i32, s: i32) -> [u8; 3]
    ensures value { result ≡ hls_bytes h l s }
    ensures all_beside { AllBeside (exact_hls h l s) result }
{
    if s <= 0 {
        let gray = percent_byte(l);
        return [gray, gray, gray];
    }
    // The remainder comes before SIXEL's offset, since the sum could overflow.
    let degrees = (rem_euclid_360(h) + 240) % 360;
    let hue = (degrees as f64) / 360.0;
    let lum = (clamp_percent(l) as f64) / 100.0;
    let sat = (clamp_percent(s) as f64) / 100.0;
    let q = upper_end(lum, sat);
    let p = 2.0 * lum - q;
    let r = hue_to_rgb(p, q, hue + 1.0 / 3.0);
    let g = hue_to_rgb(p, q, hue);
    let b = hue_to_rgb(p, q, hue - 1.0 / 3.0);
    [
        floor_to_byte(r * 255.0 + 0.5),
        floor_to_byte(g * 255.0 + 0.5),
        floor_to_byte(b * 255.0 + 0.5),
    ]
}
