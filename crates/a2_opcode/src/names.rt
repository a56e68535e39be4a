//! The names of the mnemonics.

ghost use Rattle.std.specs.Prelude.{◌≡◌, ◌<◌, map, Some, IfSome};
ghost use Rattle.a2_text.specs.Bytes.{capital as capital_of};
ghost use Rattle.a2_opcode.specs.declared.Mnemonic.{Mnemonic as DeclaredMnemonic};
ghost use Rattle.a2_opcode.specs.Names.{name_of};
ghost use Rattle.a2_opcode.specs.LookupArrays.{index_by_letters};

use crate::Mnemonic;
use a2_text::capital;

macro_rules! mnemonics {
    ($($mnemonic:ident)*) => { [$(Mnemonic::$mnemonic),*] };
}

// The mnemonics in alphabetical order.
static MNEMONICS: [Mnemonic; 56] = mnemonics!(
    Adc And Asl Bcc Bcs Beq Bit Bmi Bne Bpl Brk Bvc Bvs Clc Cld Cli Clv Cmp Cpx Cpy Dec
    Dex Dey Eor Inc Inx Iny Jmp Jsr Lda Ldx Ldy Lsr Nop Ora Pha Php Pla Plp Rol Ror Rti
    Rts Sbc Sec Sed Sei Sta Stx Sty Tax Tay Tsx Txa Txs Tya
);

// The index of the mnemonic among all of them, for each weight that `mnemonic_index` computes from its letters. No two
// mnemonics have the same weight. A weight of no mnemonic has index 0.
static INDEX_BY_WEIGHT: [u8; 256] = [
    0, 0, 0, 0, 0, 0, 0, 0, 0, 0, 0, 0, 0, 0, 0, 41, 0, 0, 0, 20, 0, 0, 0, 0, 0, 0, 0, 0, 0, 0, 0,
    0, 0, 0, 0, 4, 0, 0, 0, 0, 0, 0, 0, 53, 0, 42, 0, 0, 0, 5, 0, 29, 0, 55, 0, 0, 0, 0, 0, 0, 0,
    0, 52, 0, 0, 0, 48, 0, 0, 49, 0, 0, 0, 0, 0, 0, 0, 0, 0, 43, 0, 0, 21, 13, 0, 22, 14, 0, 0, 0,
    0, 0, 0, 0, 1, 0, 0, 54, 6, 0, 0, 15, 0, 8, 0, 7, 0, 0, 0, 44, 0, 0, 45, 0, 0, 35, 0, 0, 0, 0,
    30, 0, 0, 31, 0, 0, 0, 46, 0, 0, 0, 0, 17, 0, 0, 0, 0, 0, 50, 24, 16, 51, 0, 0, 9, 0, 0, 0, 0,
    0, 0, 0, 0, 0, 0, 37, 0, 0, 0, 0, 36, 10, 0, 0, 0, 0, 0, 0, 2, 0, 23, 0, 0, 0, 27, 0, 0, 11, 0,
    0, 0, 0, 0, 0, 0, 0, 18, 0, 0, 19, 0, 0, 0, 0, 0, 0, 0, 0, 0, 0, 38, 0, 25, 0, 0, 26, 0, 0, 0,
    34, 0, 0, 0, 0, 0, 0, 0, 0, 33, 0, 0, 0, 0, 0, 0, 12, 0, 0, 0, 0, 39, 0, 0, 0, 0, 0, 0, 0, 0,
    0, 28, 0, 0, 3, 0, 0, 0, 0, 40, 0, 0, 0, 32, 47, 0, 0,
];

// Returns the index of the only mnemonic that may have these letters.
fn mnemonic_index(letters: [u8; 3]) -> usize
    ensures is { result ≡ index_by_letters letters }
    ensures within { result < 56 }
{
    let [a, b, c] = letters;
    let weight = 6 * usize::from(a) + 10 * usize::from(b) + 3 * usize::from(c);
    usize::from(INDEX_BY_WEIGHT[weight % 256])
}

// Returns the mnemonic whose name is these capital letters.
fn spelled(letters: [u8; 3]) -> Option<Mnemonic>
    ensures found { IfSome result (λ m. name_of m ≡ letters) }
    ensures only { (m : DeclaredMnemonic) → name_of m ≡ letters → result ≡ Some m }
{
    let mnemonic = MNEMONICS[mnemonic_index(letters)];
    if mnemonic.name().as_bytes() == letters.as_slice() {
        Some(mnemonic)
    } else {
        None
    }
}

macro_rules! spellings {
    ($self:expr; $($mnemonic:ident $name:literal)*) => {
        match $self { $(Mnemonic::$mnemonic => $name),* }
    };
}

impl Mnemonic {
    /// Returns the three capital letters of the mnemonic.
    pub fn name(self) -> &'static str
        ensures { result.now ≡ name_of self }
    {
        spellings!(self;
            Adc "ADC" And "AND" Asl "ASL" Bcc "BCC" Bcs "BCS" Beq "BEQ" Bit "BIT"
            Bmi "BMI" Bne "BNE" Bpl "BPL" Brk "BRK" Bvc "BVC" Bvs "BVS" Clc "CLC"
            Cld "CLD" Cli "CLI" Clv "CLV" Cmp "CMP" Cpx "CPX" Cpy "CPY" Dec "DEC"
            Dex "DEX" Dey "DEY" Eor "EOR" Inc "INC" Inx "INX" Iny "INY" Jmp "JMP"
            Jsr "JSR" Lda "LDA" Ldx "LDX" Ldy "LDY" Lsr "LSR" Nop "NOP" Ora "ORA"
            Pha "PHA" Php "PHP" Pla "PLA" Plp "PLP" Rol "ROL" Ror "ROR" Rti "RTI"
            Rts "RTS" Sbc "SBC" Sec "SEC" Sed "SED" Sei "SEI" Sta "STA" Stx "STX"
            Sty "STY" Tax "TAX" Tay "TAY" Tsx "TSX" Txa "TXA" Txs "TXS" Tya "TYA"
        )
    }

    /// Returns the mnemonic whose name is `text`, in either case, or `None` if there is no such mnemonic.
    pub fn named(text: &[u8]) -> Option<Mnemonic>
        ensures found { IfSome result (λ m. name_of m ≡ map capital_of text.now) }
        ensures only { (m : DeclaredMnemonic) → name_of m ≡ map capital_of text.now → result ≡ Some m }
    {
        let [a, b, c] = text else {
            return None;
        };
        spelled([capital(*a), capital(*b), capital(*c)])
    }
}
