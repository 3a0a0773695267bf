// The 256 standard registers, computed from percents by their three rules. Each rule is by itself and its loops are short, since such
// loops a compiler unrolls and constant-folds: a palette then costs a reading no more than a copy of 256 numbers.
ghost use Rattle.std.specs.Prelude.{◌≡◌, ◌+◌, ◌≤◌, length};
ghost use Rattle.std.proofs.lemmas.List.Edits.{sets};
ghost use Rattle.colours.specs.Standard.{percents, base, cube, grey, standard_at, listed};

use crate::pack_rgb;

// The colour of percents of red, green and blue.
#[tactic(auto, unfolding(crate::specs::Standard::percents, hls::specs::Percent::percent_of))]
fn percents(r: u16, g: u16, b: u16) -> u32
    ensures { result ≡ percents r g b }
{
    let red = hls::percent_to_byte(r as i32);
    let green = hls::percent_to_byte(g as i32);
    let blue = hls::percent_to_byte(b as i32);
    pack_rgb(red.byte, green.byte, blue.byte)
}

// Registers 0 to 15: BASE of the Rust.
#[tactic(auto, unfolding(crate::specs::Standard::base))]
fn base() -> [u32; 16]
    ensures { result ≡ base }
{
    [
        percents(0, 0, 0),
        percents(20, 20, 80),
        percents(80, 13, 13),
        percents(20, 80, 20),
        percents(80, 20, 80),
        percents(20, 80, 80),
        percents(80, 80, 20),
        percents(53, 53, 53),
        percents(26, 26, 26),
        percents(33, 33, 60),
        percents(60, 26, 26),
        percents(33, 60, 33),
        percents(60, 33, 60),
        percents(33, 60, 60),
        percents(60, 60, 33),
        percents(80, 80, 80),
    ]
}

// Registers 16 to 231: red, green and blue each 0 to 100 by 20, blue fastest.
fn cube() -> [u32; 216]
    ensures { result ≡ listed cube 0 216 }
{
    let mut colors = [0; 216];
    for r in 0..6u16 {
        for g in 0..6u16 {
            for b in 0..6u16 {
                let k = (36 * r + 6 * g + b) as usize;
                colors[k] = percents(20 * r, 20 * g, 20 * b);
            }
        }
    }
    colors
}

// Registers 232 to 255: greys of 100k / 23 percent, rounded down.
fn greys() -> [u32; 24]
    ensures { result ≡ listed grey 0 24 }
{
    let mut colors = [0; 24];
    for k in 0..24u16 {
        let percent = 100 * k / 23;
        colors[k as usize] = percents(percent, percent, percent);
    }
    colors
}

// The registers from `first` on get a rule's colours. Asks that there are so many.
fn put(colors: &mut [u32; 256], first: usize, rule: &[u32])
    requires { first + length rule.now ≤ 256 }
    ensures { colors.new ≡ sets colors.old first rule.now }
{
    colors[first..first + rule.len()].copy_from_slice(rule);
}

// Every register by its rule, each rule at its first register.
pub fn numbers() -> [u32; 256]
    ensures { result ≡ listed standard_at 0 256 }
{
    let mut colors = [0; 256];
    put(&mut colors, 0, &base());
    put(&mut colors, 16, &cube());
    put(&mut colors, 232, &greys());
    colors
}
