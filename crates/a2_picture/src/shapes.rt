//! The shapes of the characters. `tests/picture-tables --write` writes this file from data/font.txt.

ghost use Rattle.std.specs.Prelude.{◌≡◌, ◌<◌, slice_index};
ghost use Rattle.a2_picture.specs.Shapes as shapes;

// The shape of each character, in the order of a byte's low six bits: bit 8 * R + C is the dot in column C of row R.
const SHAPES: [u64; 64] = [
    0x003C_021A_3A2A_221C,
    0x0022_223E_2222_1408,
    0x001E_2222_1E22_221E,
    0x001C_2202_0202_221C,
    0x001E_2222_2222_221E,
    0x003E_0202_1E02_023E,
    0x0002_0202_1E02_023E,
    0x003C_2222_3A02_221C,
    0x0022_2222_3E22_2222,
    0x001C_0808_0808_081C,
    0x000C_1210_1010_1038,
    0x0022_120A_060A_1222,
    0x003E_0202_0202_0202,
    0x0022_2222_2A2A_3622,
    0x0022_2232_2A26_2222,
    0x001C_2222_2222_221C,
    0x0002_0202_1E22_221E,
    0x002C_122A_2222_221C,
    0x0022_120A_1E22_221E,
    0x001E_2020_1C02_023C,
    0x0008_0808_0808_083E,
    0x001C_2222_2222_2222,
    0x0008_1422_2222_2222,
    0x0014_2A2A_2A22_2222,
    0x0022_2214_0814_2222,
    0x0008_0808_1422_2222,
    0x003E_0204_0810_203E,
    0x001C_0404_0404_041C,
    0x0000_2010_0804_0200,
    0x001C_1010_1010_101C,
    0x0000_0000_0022_1408,
    0x003E_0000_0000_0000,
    0x0000_0000_0000_0000,
    0x0008_0008_0808_0808,
    0x0000_0000_0014_1414,
    0x0014_143E_143E_1414,
    0x0008_1E28_1C0A_3C08,
    0x0030_3204_0810_2606,
    0x002C_122A_040A_0A04,
    0x0000_0000_0008_0808,
    0x0010_0804_0404_0810,
    0x0004_0810_1010_0804,
    0x0008_2A1C_3E1C_2A08,
    0x0000_0808_3E08_0800,
    0x0004_080C_0000_0000,
    0x0000_0000_3E00_0000,
    0x000C_0C00_0000_0000,
    0x0000_0204_0810_2000,
    0x001C_2226_2A32_221C,
    0x001C_0808_0808_0C08,
    0x003E_0408_1020_221C,
    0x001C_2220_1008_103E,
    0x0010_103E_1214_1810,
    0x001C_2220_201E_023E,
    0x001C_2222_1E02_0418,
    0x0004_0404_0810_203E,
    0x001C_2222_1C22_221C,
    0x000C_1020_3C22_221C,
    0x0000_0C0C_000C_0C00,
    0x0004_080C_000C_0C00,
    0x0010_0804_0204_0810,
    0x0000_003E_003E_0000,
    0x0004_0810_2010_0804,
    0x0008_0008_1020_221C,
];

// Returns the shape of the character with these six bits.
#[tactic(auto, unfolding(crate::specs::Shapes::shapes))]
fn shape_of(bits: u8) -> u64
    requires { bits < 64 }
    ensures { result ≡ slice_index shapes.shapes bits }
{
    SHAPES[usize::from(bits)]
}

/// Returns whether a dot is part of the shape of the character with these six bits.
#[tactic(auto, unfolding(crate::specs::Shapes::is_shape_dot))]
pub(crate) fn is_shape_dot(bits: u8, line: u8, column: u8) -> bool
    requires bits { bits < 64 }
    requires line { line < 8 }
    requires column { column < 7 }
    ensures { result ≡ shapes.is_shape_dot bits line column }
{
    (shape_of(bits) >> (8 * line + column)) % 2 == 1
}
