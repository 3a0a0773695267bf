// The palette (docs/RULES.md, section 9): 256 registers, each a colour and a mark packed into one number, read as pixels and set by
// percents or by HLS. A caller lends a palette's table in a loop, and takes it out and puts it back around that.
#![tactic(auto)]

pub mod marks;
mod standard;

ghost use Rattle.std.specs.Prelude.{◌≡◌};
ghost use Rattle.colours.specs.Packing.{packed, pixel_of};
ghost use Rattle.colours.specs.Palette.{of_table, standard, register_of, stored, rgb_mixed, rgb_set, hls_mixed, hls_set};
ghost use Rattle.colours.specs.Marks.{is_marked, defined, defining_rgb, defining_hls, lasting};

#[derive(Clone, Copy)]
pub struct Palette {
    colors: [u32; 256],
}

// A register's number has its colour below this.
pub(crate) const COLOR: u32 = 16_777_216;

#[tactic(auto, unfolding(crate::specs::Packing::packed))]
pub fn pack_rgb(r: u8, g: u8, b: u8) -> u32
    ensures { result ≡ packed r g b }
{
    u32::from_be_bytes([0, r, g, b])
}

#[tactic(auto, unfolding(crate::specs::Packing::pixel_of))]
pub fn pixel(color: u32) -> [u8; 4]
    ensures { result ≡ pixel_of color }
{
    let [_, r, g, b] = color.to_be_bytes();
    [r, g, b, 255]
}

// Register `index` as a pixel.
#[tactic(auto, unfolding(crate::specs::Palette::of_table, crate::specs::Palette::register_of))]
pub fn rgb_bytes(colors: &[u32; 256], index: usize) -> [u8; 4]
    ensures { result ≡ register_of (of_table colors.now) index }
{
    pixel(colors[index.min(255)])
}

// A colour, and whether at least one of the values that it was mixed of was held.
#[derive(Clone, Copy)]
struct Mixed {
    color: u32,
    held: bool,
}

// Of percents of red, green and blue.
#[tactic(auto, unfolding(crate::specs::Palette::rgb_mixed, crate::specs::Palette::rgb_colour, crate::specs::Palette::rgb_held, hls::specs::Percent::percent_of))]
fn mix_rgb(r: i32, g: i32, b: i32) -> Mixed
    ensures { result ≡ rgb_mixed r g b }
{
    let red = hls::percent_to_byte(r);
    let green = hls::percent_to_byte(g);
    let blue = hls::percent_to_byte(b);
    Mixed {
        color: pack_rgb(red.byte, green.byte, blue.byte),
        held: red.held || green.held || blue.held,
    }
}

// Of a hue, which is never held, a lightness and a saturation.
#[tactic(auto, unfolding(crate::specs::Palette::hls_mixed, crate::specs::Palette::hls_colour, crate::specs::Palette::hls_held, crate::specs::Palette::packed_bytes))]
fn mix_hls(h: i32, l: i32, s: i32) -> Mixed
    ensures { result ≡ hls_mixed h l s }
{
    let [r, g, b] = hls::hls_to_rgb(h, l, s);
    Mixed {
        color: pack_rgb(r, g, b),
        held: hls::is_outside(l) || hls::is_outside(s),
    }
}

// Register `index` gets a colour and keeps its mark. There is none above 255, and nothing changes.
#[tactic(auto, unfolding(crate::specs::Palette::of_table, crate::specs::Palette::stored, crate::specs::Palette::recoloured))]
fn store(colors: &mut [u32; 256], index: usize, color: u32)
    ensures { of_table colors.new ≡ stored (of_table colors.old) index color }
{
    if index < 256 {
        colors[index] = colors[index] / COLOR % 2 * COLOR + color % COLOR;
    }
}

fn define(colors: &mut [u32; 256], index: usize, mixed: Mixed) -> bool
    ensures { (result ≡ mixed.held) × (of_table colors.new ≡ defined (of_table colors.old) index mixed.color) }
{
    marks::define(colors, index, mixed.color);
    mixed.held
}

// A colour command defines register `index` by percents of red, green and blue. Answers whether one of them was held.
#[tactic(auto, unfolding(crate::specs::Marks::defining_rgb, crate::specs::Marks::defined_rgb, crate::specs::Palette::rgb_mixed))]
pub fn define_rgb(colors: &mut [u32; 256], index: usize, r: i32, g: i32, b: i32) -> bool
    ensures { (result, of_table colors.new) ≡ defining_rgb (of_table colors.old) index r g b }
{
    define(colors, index, mix_rgb(r, g, b))
}

// A colour command defines register `index` by hue, lightness and saturation. Answers whether one of the last two was held.
#[tactic(auto, unfolding(crate::specs::Marks::defining_hls, crate::specs::Marks::defined_hls, crate::specs::Palette::hls_mixed))]
pub fn define_hls(colors: &mut [u32; 256], index: usize, h: i32, l: i32, s: i32) -> bool
    ensures { (result, of_table colors.new) ≡ defining_hls (of_table colors.old) index h l s }
{
    define(colors, index, mix_hls(h, l, s))
}

// A palette with a register set, and whether one of the values was held.
#[derive(Clone, Copy)]
pub struct Set {
    pub palette: Palette,
    pub held: bool,
}

impl Palette {
    #[tactic(auto, unfolding(crate::specs::Palette::standard))]
    pub fn standard() -> Palette
        ensures { result ≡ standard }
    {
        Palette::of_table(standard::numbers())
    }

    pub fn reset(self) -> Palette
        ensures { result ≡ standard }
    {
        Palette::standard()
    }

    pub fn register(self, index: usize) -> [u8; 4]
        ensures { result ≡ register_of self index }
    {
        let colors = self.table();
        rgb_bytes(&colors, index)
    }

    // By the owner. There is no register above 255, and nothing is set; the answer on the values is given all the same.
    #[tactic(auto, unfolding(crate::specs::Palette::rgb_set, crate::specs::Palette::set_rgb, crate::specs::Palette::rgb_mixed))]
    pub fn set_rgb_percent(self, index: usize, r: i32, g: i32, b: i32) -> Set
        ensures { result ≡ rgb_set self index r g b }
    {
        self.set(index, mix_rgb(r, g, b))
    }

    #[tactic(auto, unfolding(crate::specs::Palette::hls_set, crate::specs::Palette::set_hls, crate::specs::Palette::hls_mixed))]
    pub fn set_hls(self, index: usize, h: i32, l: i32, s: i32) -> Set
        ensures { result ≡ hls_set self index h l s }
    {
        self.set(index, mix_hls(h, l, s))
    }

    fn set(self, index: usize, mixed: Mixed) -> Set
        ensures { (result.palette ≡ stored self index mixed.color) × (result.held ≡ mixed.held) }
    {
        let mut colors = self.table();
        store(&mut colors, index, mixed.color);
        Set {
            palette: Palette::of_table(colors),
            held: mixed.held,
        }
    }

    // Whether a colour command has defined register `index`, in a frame that was finished.
    pub fn is_marked(self, index: usize) -> bool
        ensures { result ≡ is_marked self index }
    {
        let colors = self.table();
        marks::is_marked(&colors, index)
    }

    // What a frame starts from, and what one leaves: colours and marks.
    pub fn lasting(self) -> Palette
        ensures { result ≡ lasting self }
    {
        let mut colors = self.table();
        marks::begin(&mut colors);
        Palette::of_table(colors)
    }

    // The registers' numbers, for a loop that lends them.
    #[tactic(auto, unfolding(crate::specs::Palette::of_table))]
    pub fn table(self) -> [u32; 256]
        ensures { of_table result ≡ self }
    {
        self.colors
    }

    #[tactic(auto, unfolding(crate::specs::Palette::of_table))]
    pub fn of_table(colors: [u32; 256]) -> Palette
        ensures { result ≡ of_table colors }
    {
        Palette { colors }
    }
}
