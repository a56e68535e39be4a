//! A line, spelt from its end.

ghost use Rattle.std.specs.Prelude.{◌≡◌, ◌+◌, ◌<◌, ◌≤◌, ◌∷◌, ◌++◌, [], length};
ghost use Rattle.std.specs.Fmt.{decimal as decimal_of};
ghost use Rattle.a2_text.specs.Digits as digits;
ghost use Rattle.a2_effect.specs.View.{registers_of};
ghost use Rattle.a2_trace.specs.Traced as spelt;

use a2_cpu::Regs;
use std::marker::Model;

// The greatest length of a line in bytes.
const ROOM: usize = 128;

// The two capital hexadecimal digits of each byte, one after another.
#[inline(always)]
fn hex_pairs() -> &'static [u8; 512]
    ensures { result.now ≡ spelt.pairs digits.hex_pair 256 }
{
    b"\
      000102030405060708090A0B0C0D0E0F101112131415161718191A1B1C1D1E1F\
      202122232425262728292A2B2C2D2E2F303132333435363738393A3B3C3D3E3F\
      404142434445464748494A4B4C4D4E4F505152535455565758595A5B5C5D5E5F\
      606162636465666768696A6B6C6D6E6F707172737475767778797A7B7C7D7E7F\
      808182838485868788898A8B8C8D8E8F909192939495969798999A9B9C9D9E9F\
      A0A1A2A3A4A5A6A7A8A9AAABACADAEAFB0B1B2B3B4B5B6B7B8B9BABBBCBDBEBF\
      C0C1C2C3C4C5C6C7C8C9CACBCCCDCECFD0D1D2D3D4D5D6D7D8D9DADBDCDDDEDF\
      E0E1E2E3E4E5E6E7E8E9EAEBECEDEEEFF0F1F2F3F4F5F6F7F8F9FAFBFCFDFEFF\
      "
}

// Returns the two capital hexadecimal digits of a byte.
#[inline(always)]
fn hex_pair(byte: u8) -> [u8; 2]
    ensures { result ≡ digits.hex_pair byte }
{
    let pairs = hex_pairs();
    let place = 2 * usize::from(byte);
    [pairs[place], pairs[place + 1]]
}

// The two decimal digits of each number below 100, one after another.
#[inline(always)]
fn decimal_pairs() -> &'static [u8; 200]
    ensures { result.now ≡ spelt.pairs spelt.decimal_pair 100 }
{
    b"\
      0001020304050607080910111213141516171819\
      2021222324252627282930313233343536373839\
      4041424344454647484950515253545556575859\
      6061626364656667686970717273747576777879\
      8081828384858687888990919293949596979899\
      "
}

// Returns the two decimal digits of a number below 100.
#[inline(always)]
fn decimal_pair(number: u8) -> [u8; 2]
    requires { number < 100 }
    ensures { result ≡ spelt.decimal_pair number }
{
    let decimals = decimal_pairs();
    let place = 2 * usize::from(number);
    [decimals[place], decimals[place + 1]]
}

/// Returns the fields of a register line up to the steps: A, X, Y, the flags as they are pushed, S and PC, with the texts between
/// their digits.
#[inline(always)]
#[tactic(auto, unfolding(crate::specs::Traced::fields))]
pub(crate) fn fields(regs: Regs) -> [u8; 39]
    ensures { result ≡ spelt.fields (registers_of regs) }
{
    let [a_high, a_low] = hex_pair(regs.a);
    let [x_high, x_low] = hex_pair(regs.x);
    let [y_high, y_low] = hex_pair(regs.y);
    let [p_high, p_low] = hex_pair(regs.p.pushed());
    let [s_high, s_low] = hex_pair(regs.s);
    let [page_high, page_low] = hex_pair((regs.pc / 256) as u8);
    let [pc_high, pc_low] = hex_pair((regs.pc % 256) as u8);
    [
        b'A', b'=', a_high, a_low, b' ', b'X', b'=', x_high, x_low, b' ', b'Y', b'=', y_high,
        y_low, b' ', b'P', b'=', p_high, p_low, b' ', b'S', b'=', s_high, s_low, b' ', b'P', b'C',
        b'=', page_high, page_low, pc_high, pc_low, b' ', b'S', b'T', b'E', b'P', b'S', b'=',
    ]
}

/// At most 128 bytes, which grow at their front, so that the digits of a number are written where they stay. Contracts see the
/// bytes.
#[derive(Drop)]
pub(crate) struct Line {
    bytes: [u8; ROOM],
    first: usize,
}

impl Model for Line {
    ghost use Rattle.std.specs.Prelude.{◌≤◌, ℕ, List, drop};

    ghost Value = { List ℕ };

    ghost view = { λ l. drop l.first l.bytes };

    ghost invariant = { λ l. l.first ≤ 128 };
}

impl Line {
    /// Returns an empty line.
    #[inline(always)]
    pub(crate) fn new() -> Line
        ensures { result ≡ [] }
    {
        Line {
            bytes: [0; ROOM],
            first: ROOM,
        }
    }

    /// Returns the bytes of the line.
    #[inline(always)]
    pub(crate) fn as_slice(&self) -> &[u8]
        ensures { result.now ≡ self.now }
    {
        &self.bytes[self.first..]
    }

    /// Puts a byte before the others.
    #[inline(always)]
    pub(crate) fn put(&mut self, byte: u8)
        requires { length self.old < 128 }
        ensures { self.new ≡ byte ∷ self.old }
    {
        self.first -= 1;
        self.bytes[self.first] = byte;
    }

    /// Puts a text before the others.
    #[inline(always)]
    pub(crate) fn put_text(&mut self, text: &[u8])
        requires { length text.now + length self.old ≤ 128 }
        ensures { self.new ≡ text.now ++ self.old }
    {
        let end = self.first;
        self.first -= text.len();
        self.bytes[self.first..end].copy_from_slice(text);
    }

    /// Puts a number in decimal digits before the others.
    #[inline(always)]
    pub(crate) fn put_number(&mut self, number: u64)
        requires { 20 + length self.old ≤ 128 }
        ensures bytes { self.new ≡ decimal_of number ++ self.old }
        ensures length { length self.new ≤ 20 + length self.old }
    {
        let mut rest = number;
        while rest >= 100 {
            self.put_text(&decimal_pair((rest % 100) as u8));
            rest /= 100;
        }
        if rest >= 10 {
            self.put_text(&decimal_pair(rest as u8));
        } else {
            self.put(b'0' + rest as u8);
        }
    }
}
