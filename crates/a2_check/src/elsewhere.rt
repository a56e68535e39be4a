//! Words of other assemblers, and what to write instead.

use crate::line::is_among;

/// The fix for another assembler's word: what to write in front of the operand, or what else to do.
#[derive(Clone, Copy)]
pub(crate) struct Elsewhere {
    pub here: &'static [u8],
}

// Words of other assemblers, in capitals with blanks between them. All words of one entry mean the same; the second text is
// the fix. If it ends with a blank, the operand follows.
static DIRECTIVES: [(&[u8], &[u8]); 15] = [
    (b".ORG .OR *= * !ORG", b"write  ORG "),
    (b"= := .EQ .EQU EPZ .SET", b"write  EQU "),
    (
        b".BYTE .BYT .DB DB FCB DC.B DC DCB BYTE BYT !BYTE !BY !8 .DFB",
        b"write  DFB ",
    ),
    (
        b".WORD .ADDR .DA DA ADR FDB DC.W WORD !WORD !WO !16 .DW",
        b"write  DW ",
    ),
    (
        b".RES .DS .DSB .FILL !FILL .BS DFS RMB DSB DS.B .BLKB",
        b"write  DS ",
    ),
    (
        b".ASC .AS .TEXT !TEXT .ASCII .STRING STR !TX",
        b"write  ASC ",
    ),
    (
        b"HEX .HEX !HEX .HS",
        b"use DFB with $ before each byte and commas between them, as in  DFB $A9,$C1",
    ),
    (
        b"DCI .AT",
        b"use ASC twice, the second time for the last character, in the other quotes",
    ),
    (
        b"INV",
        b"use DFB for inverse letters, as in  DFB 'H'-$40,'I'-$40",
    ),
    (
        b"FLS",
        b"use ASC with ' quotes for flashing letters, as in  ASC 'HI'",
    ),
    (
        b"END .END .EN OBJ LST PROCESSOR DSK .TF .TA !TO !CPU .SETCPU .P02 MSB .LIST XC TTL SBTL PAGE NLS SAV",
        b"remove the line",
    ),
    (
        b".INCLUDE INCLUDE !SOURCE !SRC PUT ICL .IN CHN .INCBIN INCBIN !BINARY .IMPORT .EXPORT USE",
        b"paste the lines of that file here, or write INCLUDE and the name in quotes, as in  INCLUDE \"io.s\"",
    ),
    (
        b".MACRO MAC !MACRO .MA .MAC MACRO .ENDMACRO .EM <<< >>> .REPT REPEAT",
        b"use a subroutine, or MACRO and REPEAT, which larger-language.md in the manual explains",
    ),
    (
        b".IF IF !IF DO .DO .IFDEF IFDEF ELSE .ELSE FIN .FIN ENDIF .ENDIF .FI .EL",
        b"keep only the lines you need, or use IF, which larger-language.md in the manual explains",
    ),
    (
        b".SEGMENT .CODE .DATA .BSS .ZEROPAGE .PROC .ENDPROC .SCOPE .ENDSCOPE SEG SUBROUTINE !ZONE .( .)",
        b"remove the line; ORG sets addresses, and names are valid in the whole source",
    ),
];

// The same for instructions, of other processors too.
static INSTRUCTIONS: [(&[u8], &[u8]); 37] = [
    (b"BGE JC JAE BHS", b"write  BCS "),
    (b"BLT JNC JB BLO", b"write  BCC "),
    (b"BTR BNZ JNE JNZ", b"write  BNE "),
    (b"BFL BZ JE JZ", b"write  BEQ "),
    (b"XOR", b"write  EOR "),
    (b"OR", b"write  ORA "),
    (b"BRA JP JUMP GOTO BR", b"write  JMP "),
    (b"CALL GOSUB BSR", b"write  JSR "),
    (b"RET RETURN", b"write  RTS"),
    (b"HLT HALT STOP", b"write  RTS to end the program, or  BRK"),
    (b"ADD", b"write  CLC, then in the next line  ADC "),
    (b"SUB", b"write  SEC, then in the next line  SBC "),
    (b"CP CMPA", b"write  CMP "),
    (b"SHL SLA", b"write  ASL "),
    (b"SHR SRL", b"write  LSR "),
    (b"LOAD", b"write  LDA "),
    (b"STORE", b"write  STA "),
    (b"INA INCA", b"write  CLC, then  ADC #1 in the next line"),
    (b"DEA DECA", b"write  SEC, then  SBC #1 in the next line"),
    (b"PUSH PSH PSHA PUSHA", b"write  PHA, which pushes A"),
    (b"POP PULL PUL PULA POPA", b"write  PLA, which pulls A"),
    (
        b"MOV MOVE LD ST LET POKE PEEK",
        b"use LDA, LDX or LDY to load a byte, and STA, STX or STY to store it",
    ),
    (b"NOT COM CPL", b"write  EOR #$FF"),
    (
        b"NEG",
        b"write  EOR #$FF, then  CLC and  ADC #1 in the next lines",
    ),
    (b"DJNZ DBNZ", b"write  DEX, then in the next line  BNE "),
    (b"CLR", b"write  LDA #0, then in the next line  STA "),
    (b"SWI INT", b"write  BRK"),
    (
        b"MUL DIV",
        b"use a loop of additions or subtractions; the 6502 has no such instruction",
    ),
    (
        b"PHX PHY",
        b"write  TXA or  TYA, then  PHA in the next line",
    ),
    (
        b"PLX PLY",
        b"write  PLA, then  TAX or  TAY in the next line",
    ),
    (b"TXY", b"write  TXA, then  TAY in the next line"),
    (b"TYX", b"write  TYA, then  TAX in the next line"),
    (
        b"BGT BHI JA JG",
        b"write  BEQ *+4, then in the next line  BCS ",
    ),
    (
        b"BLE BLS JBE JLE",
        b"write  BEQ to the same label, then in the next line  BCC ",
    ),
    (
        b"PRINT",
        b"load each character into A, and print it with JSR to the service COUT",
    ),
    (
        b"FOR WHILE UNTIL",
        b"write a label above the lines to repeat, and after them a branch back to it, such as  BNE LOOP",
    ),
    (
        b"STZ",
        b"write  LDA #0, then  STA with this operand in the next line",
    ),
];

impl Elsewhere {
    /// Whether the operand is kept unchanged after the replacement.
    pub(crate) fn keeps_operand(self) -> bool {
        self.here.ends_with(b" ")
    }

    /// Whether the operand is a number of bytes. In another assembler a fill value may follow it.
    pub(crate) fn is_room(self) -> bool {
        self.here.starts_with(b"write  DS ")
    }
}

// Returns the fix for a word of other assemblers in a table, or `None` if the table does not have the word.
fn known_in(word: &[u8], table: &'static [(&'static [u8], &'static [u8])]) -> Option<Elsewhere> {
    for (words, here) in table {
        if is_among(word, words) {
            return Some(Elsewhere { here: *here });
        }
    }
    None
}

/// Returns what to write instead of another assembler's word, or `None` if the word is not known.
pub(crate) fn known_elsewhere(word: &[u8]) -> Option<Elsewhere> {
    match known_in(word, &DIRECTIVES) {
        Some(other) => Some(other),
        None => known_in(word, &INSTRUCTIONS),
    }
}
