// Grid units as f32, and back.
#![tactic(auto)]

ghost use Rattle.std.specs.Prelude.{◌≡◌, true, from_bits};
ghost use Rattle.std.specs.Float.{binary32};
ghost use Rattle.rules.specs.Points.{in_range};
ghost use Rattle.rules.specs.Stl.{metres, bits_of};
ghost use Rattle.grid.specs.Numbers.{read};

// A number off the grid: itself, its bits and its facet. All NaNs are one number here, so that only the bits hand each back as it stood.
#[derive(Clone, Copy)]
pub struct OffGrid {
    pub number: f32,
    pub bits: u32,
    pub facet: u32,
}

// The units divided by 16.
pub fn metres_of(units: i16) -> f32
    ensures { result ≡ metres units }
{
    (units as f32) / 16.0
}

fn bits_of(units: i16) -> u32
    requires { in_range units ≡ true }
    ensures { result ≡ bits_of units }
{
    f32::to_bits(metres_of(units))
}

// The f32 with these bits.
pub fn float_of(bits: u32) -> f32
    ensures { result ≡ from_bits binary32 bits }
{
    if bits % 0x8000_0000 > 0x7f80_0000 {
        return f32::NAN;
    }
    f32::from_bits(bits)
}

// The units that a number says, by itself and its bits.
pub fn number_of(x: f32, bits: u32, facet: u32) -> Result<i16, OffGrid>
    requires { x ≡ from_bits binary32 bits }
    ensures { result ≡ read bits facet }
{
    let y = x * 16.0;
    if y >= -1023.0 {
        if y <= 1023.0 {
            let units = std::num::truncating_f32_to_i64(y) as i16;
            if bits_of(units) == bits {
                return Ok(units);
            }
        }
    }
    Err(OffGrid {
        number: x,
        bits,
        facet,
    })
}
