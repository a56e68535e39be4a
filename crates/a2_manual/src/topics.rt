//! The topics of the manual's tables. `tests/topics --write` writes this file from docs/manual.

/// The topics, with tildes between them. The first line of each is its names, with commas between them.
pub const MANUAL: &[u8] = br##"E1
E1 TOO LARGE
  more than 65,536 bytes: E1 TOO LARGE
  more than 4,096 lines: LINE 4097 E1 TOO LARGE
  256 times ;: LINE 1 E1 TOO LARGE
Fix: split the text, or shorten the line; continue a long comment on the next
line, after another ;.
~E2
E2 SYNTAX
     FOO 1
LINE 1 E2 SYNTAX. The line is not in the grammar. Every line on the left of
this table is E2; on the right, commas separate lines.
  'LDA #1': ' LDA #1': a line without a label begins with a blank
  ' LDA#1': ' LDA #1': put a blank between operation and operand
  LOOP: RTS: LOOP RTS
  ' LOOP RTS', ' LOOP: RTS': 'LOOP RTS': a label begins in column 1
  :LOOP RTS, @LOOP RTS, .LOOP RTS, ]LOOP RTS: LOOP RTS; there are no local
    labels
  MY.NAME RTS, MY-NAME RTS: MY_NAME RTS: a name consists of letters, digits
    and _
  'A EQU 1': 'ACC EQU 1': 'A' is not allowed as a name
  ' EQU 5': 'FIVE EQU 5'
  'COUT = $FDED', 'EQU COUT $FDED', ' define COUT $FDED': 'COUT EQU $FDED'
  ' *=$300', ' .org $300': ' ORG $300'
  ' .byte 1', ' DB 1', ' FCB 1', ' DC.B 1', ' !byte 1': ' DFB 1'
  ' .word 1', ' DA 1', ' ADR 1', ' FDB 1': ' DW 1'
More: docs/manual/refusals.md
~E3
E3 TOO MANY NAMES
1,025 lines N0 EQU 1, N1 EQU 1 and so on: LINE 1025 E3 TOO MANY NAMES.
Fix: write some of the numbers directly, or write * and a distance instead of
a nearby label.
~E4
E4 DUPLICATE NAME
    N EQU 1
    N EQU 2
LINE 2 E4 DUPLICATE NAME.
Fix: rename one of the two, or delete it. A word in column 1 is a label, so
two lines RTS define a name twice: begin them with a blank.
~E5
E5 UNKNOWN NAME
     JSR NOWHERE
LINE 1 E5 UNKNOWN NAME.
Fix: define the name with a label or with EQU; check its spelling, upper and
lower case included.
~E6
E6 NAME DEFINED LATER
     ORG START
    START EQU $300
LINE 1 E6 NAME DEFINED LATER. In ORG, EQU and DS a name must be defined in an
earlier line, because addresses depend on it.
Fix: move the definition up.
~E7
E7 NO SUCH MODE
     JSR #1
LINE 1 E7 NO SUCH MODE. The mnemonic does not have this form.
Fix: use a form that instructions.md lists; JSR takes an address without #,
STX no ,X, JMP no ,X, INC no A, and only JMP takes (P): elsewhere write (P),Y
with Y = 0.
~E8
E8 VALUE OUT OF RANGE
     LDA #256
LINE 1 E8 VALUE OUT OF RANGE.
Fix: a byte is 0 to 255. Of an address, take the half that you mean: <COUT or
>COUT. LDA 0-1 is E8 too: an address is 0 to 65,535.
~E9
E9 BRANCH TOO FAR
     ORG $300
     BEQ $382
LINE 2 E9 BRANCH TOO FAR. BEQ $381 is accepted: it is 127 bytes after the next
instruction.
Fix: use the opposite branch to skip a JMP. Instead of BEQ FAR, write BNE
NEXT, then JMP FAR, and the label NEXT in the line after them.
~E10
E10 OUTSIDE RAM
     ORG $BFFF
     LDA #1
LINE 2 E10 OUTSIDE RAM. The second of the two bytes would be at $C000.
Fix: use a lower ORG. RTS at $BFFF is accepted.
~E11
E11 OVERLAP
     RTS
     ORG $300
     RTS
LINE 3 E11 OVERLAP. A byte of the line would be where an earlier line has one.
Fix: change the ORG of one of the two parts, so that it begins after the end
of the other. A text without ORG begins at $0300.
~E12
E12 NO INSTRUCTION
The empty text, or ; only a comment: E12 NO INSTRUCTION.
Fix: write an instruction. Check that the file is the one that you meant. RTS
in column 1 is a label, not an instruction: begin the line with a blank.
~M1
M1 SYNTAX
300:GG, 12345, 300:123, 300 301, L. The line has none of the Monitor's forms.
Fix: write 1 to 4 hexadecimal digits for an address and 1 or 2 for a byte,
without $; one command per line; an address before L and G; blanks only at the
ends, after : and between bytes.
~M2
M2 BACKWARD
30F.300, 400<30F.300M. The range ends below its start.
Fix: write the lower address first. A range of one byte is 300.300.
~M3
M3 OUTSIDE RAM
C000, BFFF:1 2, BFFF<300.301M, C000L. A byte to be read or stored would be at
or above $C000.
Fix: use a lower address, or fewer bytes. C000G is not M3: you can go to any
address, and outside RAM the run stops with ROM.
~G1
G1 SYNTAX
The smallest script: back
The line is none of the above, P is neither a name nor $ and digits, or K is
badly spelled.
Fix: see the lines; a number has at most ten digits.
~G2
G2 UNKNOWN NAME
The smallest script: break NOPE
No line of the source defines the name.
Fix: check upper and lower case; use $ and the address.
~G3
G3 TOO FAR
The smallest script: back 1
The target is before the oldest copy, or before the start.
Fix: go back less.
~G4
G4 FULL
The smallest script: 257 breakpoints, or 4,097 keys
There is no room for more.
Fix: clear breakpoints; go back past keys.
~G5
G5 TOO MANY STEPS
The smallest script: step 100000001
The position and N together are above 100,000,000, even if the program would
stop before.
Fix: run fewer steps, or begin again.
~BAD WORDS
BAD WORDS, status 2
The arguments have none of the forms: run is missing (./a2 hello.s), an option
is repeated or unknown (--helps), N is above 100,000,000.
Fix: command-line.md has the forms and options.

BAD WORDS, status 2
An argument is not UTF-8, such as a file name from an older system.
Fix: give the source on standard input, ./a2 < F, or rename the file.
~BAD KEYS
BAD KEYS, status 2
The value of --keys does not spell keys, or spells more than 4,096.
Fix: machine.md has the spelling.
~READ FAULT
READ FAULT, status 4
A file or standard input cannot be opened or read.
Reading or opening a file failed. A failed read is not tried again, and
nothing is printed. The usual causes:
  there is no such file, or you may not read it: check the name, starting from
    the current folder, and the permissions
  the argument is a folder: name the file in it
  standard input is closed (<&-): give a text, or a file after run
  standard input is non-blocking and has nothing yet, because another program
    has set it so: read through a pipe: cat | ./a2
  a signal interrupted a read, on a system that does not restart the call: run
    it again
A terminal or pipe that gives a text in pieces is read to its end. Errors of a
disk or a network are reported like this too.
~WRITE FAULT
WRITE FAULT, status 4
Standard output cannot be written.
A write failed, or took nothing. It is not tried again. The first part of the
output may have been written. The usual causes:
  the reader of the output has ended, as 'head' does: none is needed
  the disk or the quota is full: free some space
  standard output is closed (>&-), or may not be written: check where it leads
  a limit on the size of files (ulimit -f): raise the limit
  standard output is non-blocking and has no room: write through a pipe: ./a2
    | cat
At a limit on the size of files, the system sends the signal XFSZ, which ends
a program that does not ignore it. ./a2 ignores it, so there the limit is
WRITE FAULT with status 4. The program file itself ends by the signal, unless
its caller ignores it: (trap '' XFSZ; exec out/a2 run F).
~NO MEMORY
NO MEMORY, status 5
No memory could be allocated.
Fix: end other programs.
~RETURNED
STOP RETURNED
PC is $FF69: the last RTS was executed.
     RTS
The normal end: the last RTS went to $FF69. If it came too early, a
subroutine's RTS found no return address on the stack: look for one PLA too
many, or for code that runs on into a subroutine. a2lab run says which line
ran on into a subroutine.
~BRK
STOP BRK
The instruction is BRK.
     BRK
In a guarded run this is always an end that you wrote. In a free run, most of
RAM is 0, which is BRK: the program ran past its end, so end it with RTS.
(Text page 1 is filled with $A0, which is LDY: a program that runs on into
$0400 stops at $0478.)

BRK: only stops the run: BRK. The 7 cycles of the manual are not counted.
Flags: none.
  BRK           implied          00, 7 cycles
~LIMIT
STOP LIMIT
There is no other cause, and the limit of steps is reached.
    L JMP L
All allowed steps were run: 1,000,000, or the number after --limit. Allow more
steps, or look for a loop that never ends:
- a counter that is stored again inside the loop
- a branch on flags that another instruction has set in between
- a wait for a key at $C000 when no key is typed
- a routine at a hook that changes the X or Y of the loop that called it
- a hook that leads back to itself, such as $FDED in $36 and $37
- a routine that calls itself, or routines that call one another in a circle,
  until the stack is full
- an RTS that goes back into the program, because it pulled a byte that PHA
  pushed
~OFF STATEMENT
STOP OFF STATEMENT
Guarded: PC is not a service, and no instruction of the source begins there.
     NOP
Only in guarded runs: no instruction of the source begins at PC, and no
service either. The usual causes:
  ' NOP': '0301'; end the program with 'RTS'
  ' NOP', 'RTS': '0301'; begin the line with a blank: 'RTS' in column 1 is a
    label
  ' LDX #$FF', ' TXS', ' RTS': '0001'; leave out 'TXS': a run begins with S =
    '$FD' and the last return address above it; or end with ' JMP $FF69'
  ' PHA', ' RTS': '6801'; pull what was pushed before 'RTS'
  ' RTI': '00FF'; end with 'RTS': 'RTI' returns from an interrupt
  ' JSR $FF3A', ' RTS': 'FF3A'; write what replaces that entry: of the
    Monitor, only the services exist
  ' STA $37', ' JSR $FDED', ' RTS': '00F0'; store both bytes of a routine's
    address in the hook, low byte first
  ' LDA #1', ' DFB $2C', ' LDA #2', ' RTS': '0302'; jump around data; code
    that is hidden in data runs only with '--free'
~CODE WRITE
STOP CODE WRITE
Guarded: the service at PC may store where an instruction's byte is.
Guarded: the instruction would store or push into an instruction's byte.
     STA $300
Only in guarded runs: the instruction would store into the bytes of an
instruction, even if it stores the byte that is already there. Store into a
DFB or DS of its own. If the program is meant to change itself, run it with
--free.
     ORG $1FD
     PHA
A push is a store too: keep code away from $0100-$01FF.
     ORG $400
     JSR $FDED
A service may also store, wherever the cursor is. Keep code away from $24,
$25, $28, $29 and $0400-$07FF, and with GETLN from $0200-$02FF. services.md
says where each service may store.
~WINDOW
STOP WINDOW
The window, the cursor, or the row or column of a block is not valid for the
service at PC.
     STA $21
     JSR $FDED
The text window has no columns, because A is 0; PC is the address of COUT1.
Set $20 to $25 so that the width $21 is at least 1, $20 + $21 at most 40, the
top $22 below the bottom $23, the bottom at most 24, the row $25 below 24, and
$20 + $24 below 40. A program that uses these addresses for its own data is
stopped in the same way: use addresses below $20 instead.
     LDA #48
     JSR $F800
Blocks have rows 0 to 47 in A and columns 0 to 39 in Y. $2C, where HLINE ends,
must be below 40, and $2D, where VLINE ends, below 48.
~KEYS
STOP KEYS
KEYIN finds no waiting key, or GETLN no RETURN among them.
     JSR $FD0C
KEYIN, which RDKEY calls, has no key to take. GETLN stops in the same way if
there is no RETURN among the keys, as JSR $FD6A with --keys HI. Give the keys,
with \r at the end of each line: --keys 'HI\r'. a2lab help keyboard says how a
program reads keys.
~DECIMAL
STOP DECIMAL
ADC or SBC with the flag D set.
     SED
     ADC #0
Decimal arithmetic is not modelled. Leave out SED, or clear D with CLD before
ADC and SBC. count.s counts in decimal without it.

Decimal
Decimal numbers are the usual ones. In a source they have no sign before them:
LDA #65. $65 is another number, 101. The flag D, for decimal arithmetic, stops
the run here: leave out SED.
More: docs/manual/language.md
~ROM
STOP ROM
A byte of the instruction would be at or above $C000.
     JMP $C000
with --free: only the services can be called at or above $C000, and $FF69 is
the end. In a guarded run this is OFF STATEMENT. Look at the target of the
last jump or call. An instruction at $BFFE or $BFFF that has a byte at $C000
also stops like this.
~OPCODE
STOP OPCODE
The byte at PC is not a documented opcode.
     NOP
     DFB 2
with --free: the byte at PC is not a documented opcode, here the $02 after
NOP. In a guarded run this is OFF STATEMENT. End the code before its data.
~LDA
LDA: A = M. Flags: N Z.
  LDA #e        immediate        A9, 2 cycles
  LDA e         zero page        A5, 3 cycles
  LDA e,X       zero page,X      B5, 4 cycles
  LDA e         absolute         AD, 4 cycles
  LDA e,X       absolute,X       BD, 4+ cycles
  LDA e,Y       absolute,Y       B9, 4+ cycles
  LDA (e,X)     (zero page,X)    A1, 6 cycles
  LDA (e),Y     (zero page),Y    B1, 5+ cycles
+: one cycle more if adding the index leads into another page.
~STA
STA: M = A. Flags: none.
  STA e         zero page        85, 3 cycles
  STA e,X       zero page,X      95, 4 cycles
  STA e         absolute         8D, 4 cycles
  STA e,X       absolute,X       9D, 5 cycles
  STA e,Y       absolute,Y       99, 5 cycles
  STA (e,X)     (zero page,X)    81, 6 cycles
  STA (e),Y     (zero page),Y    91, 6 cycles
~ADC
ADC: A = A + M + C. C is the carry; V is set if the sum of the signed numbers
is not -128 to 127. With D set it stops the run: DECIMAL. Flags: N V Z C.
  ADC #e        immediate        69, 2 cycles
  ADC e         zero page        65, 3 cycles
  ADC e,X       zero page,X      75, 4 cycles
  ADC e         absolute         6D, 4 cycles
  ADC e,X       absolute,X       7D, 4+ cycles
  ADC e,Y       absolute,Y       79, 4+ cycles
  ADC (e,X)     (zero page,X)    61, 6 cycles
  ADC (e),Y     (zero page),Y    71, 5+ cycles
+: one cycle more if adding the index leads into another page.
Begin an addition with CLC and a subtraction with SEC, because both always use
C.
~SBC
SBC: A = A - M - (1 - C). C is clear if it borrows; V as for ADC. With D set
it stops the run: DECIMAL. Flags: N V Z C.
  SBC #e        immediate        E9, 2 cycles
  SBC e         zero page        E5, 3 cycles
  SBC e,X       zero page,X      F5, 4 cycles
  SBC e         absolute         ED, 4 cycles
  SBC e,X       absolute,X       FD, 4+ cycles
  SBC e,Y       absolute,Y       F9, 4+ cycles
  SBC (e,X)     (zero page,X)    E1, 6 cycles
  SBC (e),Y     (zero page),Y    F1, 5+ cycles
+: one cycle more if adding the index leads into another page.
Begin an addition with CLC and a subtraction with SEC, because both always use
C.
~AND
AND: A = A AND M, bit by bit. Flags: N Z.
  AND #e        immediate        29, 2 cycles
  AND e         zero page        25, 3 cycles
  AND e,X       zero page,X      35, 4 cycles
  AND e         absolute         2D, 4 cycles
  AND e,X       absolute,X       3D, 4+ cycles
  AND e,Y       absolute,Y       39, 4+ cycles
  AND (e,X)     (zero page,X)    21, 6 cycles
  AND (e),Y     (zero page),Y    31, 5+ cycles
+: one cycle more if adding the index leads into another page.
~ORA
ORA: A = A OR M. Flags: N Z.
  ORA #e        immediate        09, 2 cycles
  ORA e         zero page        05, 3 cycles
  ORA e,X       zero page,X      15, 4 cycles
  ORA e         absolute         0D, 4 cycles
  ORA e,X       absolute,X       1D, 4+ cycles
  ORA e,Y       absolute,Y       19, 4+ cycles
  ORA (e,X)     (zero page,X)    01, 6 cycles
  ORA (e),Y     (zero page),Y    11, 5+ cycles
+: one cycle more if adding the index leads into another page.
~EOR
EOR: A = A exclusive-or M. Flags: N Z.
  EOR #e        immediate        49, 2 cycles
  EOR e         zero page        45, 3 cycles
  EOR e,X       zero page,X      55, 4 cycles
  EOR e         absolute         4D, 4 cycles
  EOR e,X       absolute,X       5D, 4+ cycles
  EOR e,Y       absolute,Y       59, 4+ cycles
  EOR (e,X)     (zero page,X)    41, 6 cycles
  EOR (e),Y     (zero page),Y    51, 5+ cycles
+: one cycle more if adding the index leads into another page.
~CMP
CMP: compares: sets the flags of A - M, and keeps A. C is set if A is M or
greater. Flags: N Z C.
  CMP #e        immediate        C9, 2 cycles
  CMP e         zero page        C5, 3 cycles
  CMP e,X       zero page,X      D5, 4 cycles
  CMP e         absolute         CD, 4 cycles
  CMP e,X       absolute,X       DD, 4+ cycles
  CMP e,Y       absolute,Y       D9, 4+ cycles
  CMP (e,X)     (zero page,X)    C1, 6 cycles
  CMP (e),Y     (zero page),Y    D1, 5+ cycles
+: one cycle more if adding the index leads into another page.
~SEC
SEC: sets C. Flags: C.
  SEC           implied          38, 2 cycles
~CLC
CLC: clears C. Flags: C.
  CLC           implied          18, 2 cycles
~SEI
SEI: sets I; there are no interrupts here. Flags: I.
  SEI           implied          78, 2 cycles
~CLI
CLI: clears I. Flags: I.
  CLI           implied          58, 2 cycles
~SED
SED: sets D. Flags: D.
  SED           implied          F8, 2 cycles
~CLD
CLD: clears D. Flags: D.
  CLD           implied          D8, 2 cycles
~CLV
CLV: clears V; no instruction only sets V. Flags: V.
  CLV           implied          B8, 2 cycles
~BMI
BMI: branches to e if N is set. Flags: none.
  BMI e         relative         30, 2 cycles
A branch takes one cycle more if it is taken, and another one if its target is
in another page than the next instruction. BLT of other assemblers is BCC, and
BGE is BCS.
~BPL
BPL: branches to e if N is clear. Flags: none.
  BPL e         relative         10, 2 cycles
A branch takes one cycle more if it is taken, and another one if its target is
in another page than the next instruction. BLT of other assemblers is BCC, and
BGE is BCS.
~BCC
BCC: branches to e if C is clear; after a compare: less. Flags: none.
  BCC e         relative         90, 2 cycles
A branch takes one cycle more if it is taken, and another one if its target is
in another page than the next instruction. BLT of other assemblers is BCC, and
BGE is BCS.
~BCS
BCS: branches to e if C is set; after a compare: equal or greater. Flags:
none.
  BCS e         relative         B0, 2 cycles
A branch takes one cycle more if it is taken, and another one if its target is
in another page than the next instruction. BLT of other assemblers is BCC, and
BGE is BCS.
~BEQ
BEQ: branches to e if Z is set; after a compare: equal. Flags: none.
  BEQ e         relative         F0, 2 cycles
A branch takes one cycle more if it is taken, and another one if its target is
in another page than the next instruction. BLT of other assemblers is BCC, and
BGE is BCS.
~BNE
BNE: branches to e if Z is clear; after a compare: not equal. Flags: none.
  BNE e         relative         D0, 2 cycles
A branch takes one cycle more if it is taken, and another one if its target is
in another page than the next instruction. BLT of other assemblers is BCC, and
BGE is BCS.
~BVS
BVS: branches to e if V is set. Flags: none.
  BVS e         relative         70, 2 cycles
A branch takes one cycle more if it is taken, and another one if its target is
in another page than the next instruction. BLT of other assemblers is BCC, and
BGE is BCS.
~BVC
BVC: branches to e if V is clear. Flags: none.
  BVC e         relative         50, 2 cycles
A branch takes one cycle more if it is taken, and another one if its target is
in another page than the next instruction. BLT of other assemblers is BCC, and
BGE is BCS.
~BIT
BIT: tests M: N and V become its bits 7 and 6; Z is set if A AND M is 0. A
stays. Flags: N V Z.
  BIT e         zero page        24, 3 cycles
  BIT e         absolute         2C, 4 cycles
~JMP
JMP: continues at the operand. Flags: none.
  JMP e         absolute         4C, 3 cycles
  JMP (e)       (absolute)       6C, 5 cycles
~JSR
JSR: pushes the address of its own last byte, high byte first, and continues
at the operand. Flags: none.
  JSR e         absolute         20, 6 cycles
~RTS
RTS: pulls an address, low byte first, and continues after it. Flags: none.
  RTS           implied          60, 6 cycles
~LDX
LDX: X = M. Flags: N Z.
  LDX #e        immediate        A2, 2 cycles
  LDX e         zero page        A6, 3 cycles
  LDX e,Y       zero page,Y      B6, 4 cycles
  LDX e         absolute         AE, 4 cycles
  LDX e,Y       absolute,Y       BE, 4+ cycles
+: one cycle more if adding the index leads into another page.
~LDY
LDY: Y = M. Flags: N Z.
  LDY #e        immediate        A0, 2 cycles
  LDY e         zero page        A4, 3 cycles
  LDY e,X       zero page,X      B4, 4 cycles
  LDY e         absolute         AC, 4 cycles
  LDY e,X       absolute,X       BC, 4+ cycles
+: one cycle more if adding the index leads into another page.
~STX
STX: M = X. Flags: none.
  STX e         zero page        86, 3 cycles
  STX e,Y       zero page,Y      96, 4 cycles
  STX e         absolute         8E, 4 cycles
~STY
STY: M = Y. Flags: none.
  STY e         zero page        84, 3 cycles
  STY e,X       zero page,X      94, 4 cycles
  STY e         absolute         8C, 4 cycles
~CPX
CPX: compares X as CMP compares A. Flags: N Z C.
  CPX #e        immediate        E0, 2 cycles
  CPX e         zero page        E4, 3 cycles
  CPX e         absolute         EC, 4 cycles
~CPY
CPY: compares Y as CMP compares A. Flags: N Z C.
  CPY #e        immediate        C0, 2 cycles
  CPY e         zero page        C4, 3 cycles
  CPY e         absolute         CC, 4 cycles
~INX
INX: X = X + 1; from $FF to 0. Flags: N Z.
  INX           implied          E8, 2 cycles
~INY
INY: Y = Y + 1. Flags: N Z.
  INY           implied          C8, 2 cycles
~DEX
DEX: X = X - 1; from 0 to $FF. Flags: N Z.
  DEX           implied          CA, 2 cycles
~DEY
DEY: Y = Y - 1. Flags: N Z.
  DEY           implied          88, 2 cycles
~TAX
TAX: X = A. Flags: N Z.
  TAX           implied          AA, 2 cycles
~TXA
TXA: A = X. Flags: N Z.
  TXA           implied          8A, 2 cycles
~TAY
TAY: Y = A. Flags: N Z.
  TAY           implied          A8, 2 cycles
~TYA
TYA: A = Y. Flags: N Z.
  TYA           implied          98, 2 cycles
~PHA
PHA: pushes A. Flags: none.
  PHA           implied          48, 3 cycles
~PLA
PLA: pulls A. Flags: N Z.
  PLA           implied          68, 4 cycles
~TXS
TXS: S = X. Flags: none.
  TXS           implied          9A, 2 cycles
~TSX
TSX: X = S. Flags: N Z.
  TSX           implied          BA, 2 cycles
~PHP
PHP: pushes P with bits 5 and 4 set. Flags: none.
  PHP           implied          08, 3 cycles
~PLP
PLP: pulls the six flags. Flags: N V D I Z C.
  PLP           implied          28, 4 cycles
~RTI
RTI: pulls the flags, and then the address at which it continues, low byte
first. Flags: N V D I Z C.
  RTI           implied          40, 6 cycles
~LSR
LSR: shifts right: bit 7 becomes 0, bit 0 goes to C; halves the byte. Flags: N
Z C.
  LSR A         accumulator      4A, 2 cycles
  LSR e         zero page        46, 5 cycles
  LSR e,X       zero page,X      56, 6 cycles
  LSR e         absolute         4E, 6 cycles
  LSR e,X       absolute,X       5E, 7 cycles
~ASL
ASL: shifts left: bit 0 becomes 0, bit 7 goes to C; doubles the byte. Flags: N
Z C.
  ASL A         accumulator      0A, 2 cycles
  ASL e         zero page        06, 5 cycles
  ASL e,X       zero page,X      16, 6 cycles
  ASL e         absolute         0E, 6 cycles
  ASL e,X       absolute,X       1E, 7 cycles
~ROL
ROL: shifts left: bit 0 becomes the old C, bit 7 goes to C. Flags: N Z C.
  ROL A         accumulator      2A, 2 cycles
  ROL e         zero page        26, 5 cycles
  ROL e,X       zero page,X      36, 6 cycles
  ROL e         absolute         2E, 6 cycles
  ROL e,X       absolute,X       3E, 7 cycles
~ROR
ROR: shifts right: bit 7 becomes the old C, bit 0 goes to C. Flags: N Z C.
  ROR A         accumulator      6A, 2 cycles
  ROR e         zero page        66, 5 cycles
  ROR e,X       zero page,X      76, 6 cycles
  ROR e         absolute         6E, 6 cycles
  ROR e,X       absolute,X       7E, 7 cycles
~INC
INC: M = M + 1; from $FF to 0. Flags: N Z.
  INC e         zero page        E6, 5 cycles
  INC e,X       zero page,X      F6, 6 cycles
  INC e         absolute         EE, 6 cycles
  INC e,X       absolute,X       FE, 7 cycles
~DEC
DEC: M = M - 1; from 0 to $FF. Flags: N Z.
  DEC e         zero page        C6, 5 cycles
  DEC e,X       zero page,X      D6, 6 cycles
  DEC e         absolute         CE, 6 cycles
  DEC e,X       absolute,X       DE, 7 cycles
~NOP
NOP: nothing. Flags: none.
  NOP           implied          EA, 2 cycles
~ORG
ORG e: sets the address of the next line. Bytes: none.
     ORG $300
~EQU
NAME EQU e: gives the name this value. Bytes: none.
    COUT EQU $FDED
~DFB
DFB e,e,..: stores bytes, each 0 to 255. Bytes: one each.
     DFB 1,$C1,'A'
~DW
DW e,e,..: stores words, each 0 to 65,535, low byte first. Bytes: two each.
     DW $FDED,768
~ASC
ASC 'text': stores the ASCII codes. Bytes: one a character.
     ASC 'HI'

ASC "text": stores the same with bit 7 set. Bytes: one a character.
     ASC "HI"
~DS
DS e: stores e zeros. Bytes: e.
     DS 16
~COUT,$FDED,FDED
COUT, $FDED
Goes in: A: a byte. Comes out: what the routine at the hook leaves. Stores:
nothing. Cycles: 5.
Prints the byte in A, through the output hook.
     ORG $300
     LDA #"A"
     JSR $FDED
     RTS
Row 0 is A. A=C1 X=00 Y=00 P=B0 S=FF PC=FF69 STEPS=5 CYCLES=25. The call takes
three steps: JSR, COUT and COUT1.
~COUT1,$FDF0,FDF0
COUT1, $FDF0
Goes in: A: a byte. Comes out: nothing. Stores: the screen, CH, CV, BASL,
BASH. Cycles: 6.
Prints the byte in A on the screen, whatever the hook holds.
     ORG $300
     LDA #0
     STA $36
     STA $37
     LDA #"A"
     JSR $FDF0
     RTS
Row 0 is A. A=C1 X=00 Y=00 P=B0 S=FF PC=FF69 STEPS=7 CYCLES=28.
~CROUT,$FD8E,FD8E
CROUT, $FD8E
Goes in: nothing. Comes out: A = $8D, then as COUT. Stores: nothing. Cycles:
5.
Sets A to $8D, a return, and prints it through the output hook.
     ORG $300
     LDA #"A"
     JSR $FDED
     JSR $FD8E
     LDA #"B"
     JSR $FDED
     RTS
Row 0 is A, row 1 is B. A=C2 X=00 Y=00 P=B0 S=FF PC=FF69 STEPS=12 CYCLES=61.
~PRBYTE,$FDDA,FDDA
PRBYTE, $FDDA
Goes in: A: a byte. Comes out: nothing. Stores: the screen, CH, CV, BASL,
BASH. Cycles: 6.
Prints A as two hexadecimal digits, in capitals with bit 7 set.
     ORG $300
     LDA #$A7
     JSR $FDDA
     RTS
Row 0 is A7. A=A7 X=00 Y=00 P=B0 S=FF PC=FF69 STEPS=4 CYCLES=20.
~PRHEX,$FDE3,FDE3
PRHEX, $FDE3
Goes in: A: a digit in its low four bits. Comes out: nothing. Stores: the
screen, CH, CV, BASL, BASH. Cycles: 6.
Prints the low four bits of A as one hexadecimal digit.
     ORG $300
     LDA #$A7
     JSR $FDE3
     RTS
Row 0 is 7. A=A7 X=00 Y=00 P=B0 S=FF PC=FF69 STEPS=4 CYCLES=20.
~SETINV,$FE80,FE80
SETINV, $FE80
Goes in: nothing. Comes out: nothing. Stores: INVFLG = $3F. Cycles: 6.
Sets INVFLG to $3F: characters of $A0 and above are printed inverse from now
on.
     ORG $300
     JSR $FE80
     LDA #"A"
     JSR $FDED
     RTS
With ./a2 run f.s --attr row 0 is A, and attribute row 0 begins with I.. A=C1
X=00 Y=00 P=B0 S=FF PC=FF69 STEPS=7 CYCLES=37.
~SETNORM,$FE84,FE84
SETNORM, $FE84
Goes in: nothing. Comes out: nothing. Stores: INVFLG = $FF. Cycles: 6.
Sets INVFLG to $FF, as it is at the start: characters are printed as they are.
     ORG $300
     JSR $FE80
     LDA #"A"
     JSR $FDED
     JSR $FE84
     LDA #"B"
     JSR $FDED
     RTS
With ./a2 run f.s --attr row 0 is AB, and attribute row 0 begins with I.. A=C2
X=00 Y=00 P=B0 S=FF PC=FF69 STEPS=13 CYCLES=68.
~HOME,$FC58,FC58
HOME, $FC58
Goes in: nothing. Comes out: nothing. Stores: the window's cells, CH, CV,
BASL, BASH. Cycles: 6.
Fills the window's cells with $A0, and moves the cursor to its top left: CH =
0, CV = WNDTOP.
     ORG $400
     ASC "OLD"
     ORG $300
     JSR $FC58
     LDA #"A"
     JSR $FDED
     RTS
Row 0 is A. A=C1 X=00 Y=00 P=B0 S=FF PC=FF69 STEPS=7 CYCLES=37.
~VTAB,$FC22,FC22
VTAB, $FC22
Goes in: CV: a row. Comes out: nothing. Stores: BASL, BASH. Cycles: 6.
Stores the address of row CV, column WNDLFT in BASL and BASH. Store the row in
CV before; A is ignored. The services here do not need this. A program that
stores to the screen does, and so does a real COUT after a store to CV.
     ORG $300
     LDA #5
     STA $25
     JSR $FC22
     LDY #3
     LDA #"*"
     STA ($28),Y
     RTS
Row 5 is *. A=AA X=00 Y=03 P=B0 S=FF PC=FF69 STEPS=8 CYCLES=33.
~CLREOL,$FC9C,FC9C
CLREOL, $FC9C
Goes in: nothing. Comes out: nothing. Stores: cells of row CV. Cycles: 6.
Fills the window's columns CH to WNDWDTH - 1 of row CV with $A0; none if CH is
WNDWDTH or more.
     ORG $400
     ASC "HELLO"
     ORG $480
     ASC "WORLD"
     ORG $300
     LDA #2
     STA $24
     JSR $FC9C
     RTS
Row 0 is HE, row 1 is WORLD. A=02 X=00 Y=00 P=30 S=FF PC=FF69 STEPS=5
CYCLES=23.
~CLREOP,$FC42,FC42
CLREOP, $FC42
Goes in: nothing. Comes out: nothing. Stores: the window's cells from the
cursor on, BASL, BASH. Cycles: 6.
Does what CLREOL does, then fills the window's columns of each row from CV + 1
to WNDBTM - 1 with $A0, and stores BASL and BASH.
     ORG $400
     ASC "HELLO"
     ORG $480
     ASC "WORLD"
     ORG $300
     LDA #2
     STA $24
     JSR $FC42
     RTS
Row 0 is HE, row 1 is blank. A=02 X=00 Y=00 P=30 S=FF PC=FF69 STEPS=5
CYCLES=23.
~RDKEY,$FD0C,FD0C
RDKEY, $FD0C
Goes in: nothing. Comes out: what the routine at the hook leaves. Stores:
nothing. Cycles: 5.
Takes a key, through the input hook.
     ORG $300
     JSR $FD0C
     JSR $FDED
     RTS
With ./a2 run f.s --keys Q row 0 is Q. A=D1 X=00 Y=00 P=30 S=FF PC=FF69
STEPS=7 CYCLES=40.
~KEYIN,$FD1B,FD1B
KEYIN, $FD1B
Goes in: a waiting key. Comes out: A = the key with bit 7 set. Stores:
nothing. Cycles: 6.
Takes the first waiting key, whatever the hook holds.
     ORG $300
     LDA #0
     STA $38
     STA $39
     JSR $FD1B
     JSR $FDED
     RTS
With ./a2 run f.s --keys Q row 0 is Q. A=D1 X=00 Y=00 P=32 S=FF PC=FF69
STEPS=9 CYCLES=43.
~GETLN,$FD6A,FD6A
GETLN, $FD6A
Goes in: waiting keys up to a RETURN. Comes out: X = the line's length.
Stores: $0200-$02FF, the screen, CH, CV, BASL, BASH. Cycles: 6.
Reads a line of keys to $0200, and shows it.
     ORG $300
     JSR $FD6A
     RTS
With ./a2 run f.s --keys 'HI\r' row 0 is *HI. A=00 X=02 Y=00 P=30 S=FF PC=FF69
STEPS=3 CYCLES=18. STOP RETURNED.
GETLN prints PROMPT, and then takes keys, each with bit 7 set:
1. The right arrow ($95) becomes the byte of the cursor's cell. A byte $E0-$FF
then loses $20, so small letters become capitals.
2. The byte is stored in the line, which begins at $0200.
3. $8D ends the line. The cells from the cursor to the window's right edge
become $A0, a return is printed, and X is the line's length without the $8D.
4. Any other byte is printed without the mask. Then
- $88, the left arrow, removes the last byte of the line; if there is none, a
  return and PROMPT are printed;
More: docs/manual/services.md
~WAIT,$FCA8,FCA8
WAIT, $FCA8
Goes in: A: how long. Comes out: A = 0. Stores: nothing. Cycles: (14 + 27a +
5a^2) / 2, a being A before the call; 167,293 if A is 0.
Sets A to 0 and counts cycles. Let a be the value in A before. If a is at
least 1, WAIT with the 6 cycles of its JSR takes (26 + 27a + 5a^2) / 2
microseconds. That is the Reference Manual's formula.
     ORG $300
     LDA #1
     JSR $FCA8
     RTS
A=00 X=00 Y=00 P=30 S=FF PC=FF69 STEPS=4 CYCLES=37: 2 for LDA, 6 for JSR, 23
for WAIT, 6 for RTS.
~SETCOL,$F864,F864
SETCOL, $F864
Goes in: A: a colour. Comes out: nothing. Stores: COLOR. Cycles: 6.
Stores 17 times A's low four bits in COLOR: the same colour for even and odd
rows.
     ORG $300
     LDA #$1D
     JSR $F864
     LDA $30
     JSR $FDDA
     RTS
Row 0 is DD. A=DD X=00 Y=00 P=B0 S=FF PC=FF69 STEPS=7 CYCLES=35.
~PLOT,$F800,F800
PLOT, $F800
Goes in: A: a row of blocks, Y: a column. Comes out: nothing. Stores: one
block. Cycles: 6.
Gives the block of row A, column Y the colour in COLOR. The other block of the
cell stays.
     ORG $300
     LDA $C050
     JSR $F832
     LDA #13
     JSR $F864
     LDA #5
     LDY #3
     JSR $F800
     RTS
Row 4 begins with 00000, row 5 begins with 000D0. A=05 X=00 Y=03 P=30 S=FF
PC=FF69 STEPS=11 CYCLES=52.
~HLINE,$F819,F819
HLINE, $F819
Goes in: A: a row, Y and H2: columns. Comes out: nothing. Stores: blocks of
the row. Cycles: 6.
Plots row A from column Y to the column in H2; if H2 is below Y, only the
block at Y.
     ORG $300
     LDA $C050
     JSR $F832
     LDA #9
     JSR $F864
     LDA #7
     STA $2C
     LDA #2
     LDY #4
     JSR $F819
     RTS
Row 2 begins with 000099990. A=02 X=00 Y=04 P=30 S=FF PC=FF69 STEPS=13
CYCLES=57.
~VLINE,$F828,F828
VLINE, $F828
Goes in: Y: a column, A and V2: rows. Comes out: nothing. Stores: blocks of
the column. Cycles: 6.
Plots column Y from row A to the row in V2; if V2 is below A, only the block
at A.
     ORG $300
     LDA $C050
     JSR $F832
     LDA #6
     JSR $F864
     LDA #3
     STA $2D
     LDA #1
     LDY #4
     JSR $F828
     RTS
Row 0 begins with 00000, row 1 begins with 00006, row 3 begins with 00006, row
4 begins with 00000. A=01 X=00 Y=04 P=30 S=FF PC=FF69 STEPS=13 CYCLES=57.
~SCRN,$F871,F871
SCRN, $F871
Goes in: A: a row, Y: a column. Comes out: A = the block's colour. Stores:
nothing. Cycles: 6.
Returns in A the colour of the block of row A, column Y, 0 to 15.
     ORG $400
     DFB $D5
     ORG $300
     LDA #1
     LDY #0
     JSR $F871
     RTS
A=0D X=00 Y=00 P=32 S=FF PC=FF69 STEPS=5 CYCLES=22. The byte $D5 is the colour
5 above and 13 below.
~CLRSCR,$F832,F832
CLRSCR, $F832
Goes in: nothing. Comes out: nothing. Stores: page 1's cells, COLOR = 0, V2 =
47. Cycles: 6.
Makes all blocks black: 0 in all cells of page 1, COLOR = 0 and V2 = 47.
     ORG $300
     JSR $F832
     LDA $C050
     LDA $2D
     LDX $30
     RTS
Row 0 begins with 0000, row 47 begins with 0000. A=2F X=00 Y=00 P=32 S=FF
PC=FF69 STEPS=6 CYCLES=28.
~WNDLFT,$20,20
WNDLFT, $20: the window's first column.
~WNDWDTH,$21,21
WNDWDTH, $21: the number of columns of the window.
~WNDTOP,$22,22
WNDTOP, $22: the window's first row.
~WNDBTM,$23,23
WNDBTM, $23: the row after the window's last.
~CH,$24,24
CH, $24: the cursor's column in the window.
~CV,$25,25
CV, $25: the cursor's row on the screen.
~BASL,BASH,$28,28,$29,29
BASL, BASH, $28, $29: the address of row CV, column WNDLFT of page 1, low byte
first; services store it and never read it.
~H2,$2C,2C
H2, $2C: the column of blocks at which HLINE ends.
~V2,$2D,2D
V2, $2D: the row of blocks at which VLINE ends.
~COLOR,$30,30
COLOR, $30: the colour of blocks: in its low four bits for even rows, in its
high four for odd ones.
~INVFLG,$32,32
INVFLG, $32: the mask of characters: $FF normal, $3F inverse.
~PROMPT,$33,33
PROMPT, $33: the byte that GETLN prints first.
~CSW,$36,36,$37,37
CSW, $36, $37: the output hook: where COUT and CROUT go, low byte first; at
the start $FDF0, COUT1.
~KSW,$38,38,$39,39
KSW, $38, $39: the input hook: where RDKEY goes; at the start $FD1B, KEYIN.
~$C000,C000
$C000, any access: a read gives the key; nothing changes.
~$C010,C010
$C010, any access: takes the key; a read gives 0.
~$C050,C050,$C051,C051
$C050, $C051, any access: graphics; text.
~$C052,C052,$C053,C053
$C052, $C053, any access: full; mixed.
~$C054,C054,$C055,C055
$C054, $C055, any access: page 1; page 2.
~$C056,C056,$C057,C057
$C056, $C057, any access: lo-res; hi-res.
~$0100,0100
$0100 to $01FF: the stack.
~$0400,0400
$0400 to $07FF: text page 1.
~$0800,0800
$0800 to $0BFF: text page 2.
~STORE
Monitor: store
    *300:11 22 33
    *:44
A store has no answer. A line without an address stores at the next address:
the one after the last byte stored. 300: without bytes sets it to $0300; at
first it is $0000.
~EXAMINE
Monitor: examine
    *300
    0300- 11
    *300.303
    0300- 11 22 33 44
A new line begins at each address that is divisible by 8:
    *3FF.408
    03FF- 00
    0400- A0 A0 A0 A0 A0 A0 A0 A0
    0408- A0
Examining sets the next address to its start, so you can change a byte that
you have just looked at with :. No other line except these two changes the
next address.
Examining has no effect on anything else; it shows RAM below $C000. In a new
session the two hooks hold the addresses of COUT1 and KEYIN:
    *36.39
    0036- F0 FD
    0038- 1B FD
~MOVE
Monitor: move
    *310<300.303M
    *310.317
    0310- 11 22 33 44 00 00 00 00
    *301<300.303M
    *300.304
    0300- 11 11 11 11 11
Bytes are copied one by one, upwards. If the destination begins inside the
range, the first bytes are copied again and again: the second move fills $0301
to $0304 with the byte at $0300. So to fill $0300 to $03FF with a byte, type
300:A0 and then 301<300.3FEM.
~VERIFY
Monitor: verify
    *310<300.303V
    0301- 11 (22)
    0302- 11 (33)
    0303- 11 (44)
For each place that differs, the answer has the address in the range, its
byte, and the byte at the destination. If nothing differs, there is no answer.
~LIST
Monitor: list
    *BFFD:A9 C1 60
    *BFFDL
    BFFD-   A9 C1      LDA   #$C1
    BFFF-   60         RTS
Lists 20 instructions, or fewer if the next one has a byte at or above $C000.
A byte that is not a documented opcode is listed as ???.
~GO
Monitor: go
    *BFFDG
    A=C1 X=00 Y=00 P=B0 S=FF PC=FF69 STEPS=2 CYCLES=8
    STOP RETURNED
    *BFFDG
    A=C1 X=00 Y=00 P=B0 S=FF PC=FF69 STEPS=4 CYCLES=16
    STOP RETURNED
The program is called as a subroutine: its last RTS returns to the Monitor,
and the answer is STOP RETURNED. Each run has at most 1,000,000 steps;
stops.md has the other causes of a stop. A, X, Y and P keep their values from
the run before, at first 0; S, $01FE and $01FF are set again. STEPS and CYCLES
continue to count through the session. You can go to any address, also to a
service.

Debugger: go N
Runs N steps like step, but stops after a step that reaches a breakpoint.
Answer: the register line, then STOP and the cause, or BREAK.
~STEP
Debugger: step N
Runs N steps, or fewer if a cause stops the program; breakpoints are ignored.
Answer: the register line, then STOP and the cause.
~BACK
Debugger: back N
Goes N steps back. Answer: the register line.
~BREAK
Debugger: break P
Sets a breakpoint. Answer: nothing.
~CLEAR
Debugger: clear P
Removes a breakpoint, if there is one. Answer: nothing.
~TYPE
Debugger: type K
Types the keys K. Answer: nothing.
~SCREEN,TEXT PAGE,ROW,COLUMN,TEXT PAGES
Debugger: screen
Answer: the picture.

Screen, text page, row, column
The screen has 24 rows of 40 characters. They are bytes of memory: row 0
begins at $0400, row 1 at $0480. Print with COUT ($FDED), or store there.
     LDA #"A"
     STA $400    ; row 0, column 0
     STA $427    ; row 0, column 39
     RTS
Row 0 begins with A.
More: docs/manual/machine.md
~--KEYS
--keys K: types the keys K, which all wait from the start; machine.md says how
to spell them.
~--LIMIT
--limit N: stops the run after at most N steps: 1 to 9 digits, at most
100,000,000; without it 1,000,000.
~--FREE
--free: runs without the guard: instructions may begin anywhere, and code may
be overwritten.
~--ATTR
--attr: prints after the picture how each character is shown: normal, inverse
or flashing.
~WANT
WANT: the cases of a2lab test, in lines of these forms
  case NAME: begins a case
  keys K: these keys are waiting at the start, spelt as after --keys
  keys-at N:K: these keys are typed after N steps, as by --keys-at. Each such
    line counts
  replay T: the keys of the recorded session T are typed, each after its steps
  free: the run is not guarded, as by --free
  limit N: the run has at most N steps, up to 100,000,000; without it
    1,000,000, or as many as the session that replay names
  call NAME A=05 X=07 RESULT=00: the routine NAME runs instead of the program.
    Before it, these registers A, X and Y and these places hold these bytes. A
    place is a name, a name and a number such as RESULT+1, or $320. The case
    fails if the routine does not return, unless a stop line names the cause
  screen: the next lines that begin with a bar are the rows of the screen from
    the top, and the rows after them are blank. Blanks at the end of a row do
    not count. Rows that follow neither screen nor attr are ignored
  attr: the next lines that begin with a bar are the rows of attributes, as
    a2lab run --attr prints them: . for normal, I for inverse and F for
    flashing. The rest of a row, and the rows after them, are normal.
  screen row 0 = "TEXT": the row of this number, 0 to 23 from the top, is this
    text. Blanks at its end do not count.
  screen holds "TEXT": some row contains this text
  screen row 0 is inverse "TEXT": the row of this number contains this text,
    and each of its characters is shown inverse; normal and flashing likewise
  screen is normal: each character of the screen is shown normal; inverse and
    flashing likewise
  mem $320 = A9 01: memory holds these bytes at the end, at an address or a
    name of the source; + cannot follow here
  reg A=E9 X=00: these registers of A, X, Y, P and S hold these bytes at the
    end. A byte may also be written #233 or %11101001
  stop RETURNED, stops RETURNED: the run stops with this cause
  cycles <= N: the run takes at most N cycles; N is at most 100,000,000
  bytes <= N: the source's statements have at most N bytes
  must use BNE, must not use BNE: an instruction of the source has this
    mnemonic, or none has it
More: docs/manual/class.md
~PROMISE,PROMISES,REQUIRES,ENSURES
Promise: what a routine requires, ensures and changes
    ;: requires $10 <= 100 and $11 <= 100
    ;: ensures  A = old $10 + old $11
    ;: changes  A
    ADD     CLC
            LDA $10
            ADC $11
            RTS
  ;: requires: what must hold when the routine is entered; the caller sees to
    it
  ;: ensures: what holds when it has returned
  ;: changes: what may be different afterwards: registers, bytes ($12, NAME)
    and ranges of bytes ($30..$37), separated by commas. Everything else
    stays: A, X and Y, and each byte of RAM. Flags may always change, and so
    may the stack below the return address
  ;: prints, ;: takes: what the routine prints, and which typed keys it takes
More: docs/manual/promises.md
~BYTE,BITS,BYTES
Byte, bits
A byte is a number from 0 to 255. It consists of eight bits, each 0 or 1. Bit
0, at the right, counts 1, bit 1 counts 2, and so on up to bit 7, which counts
128. All memory consists of bytes, and A, X and Y hold one byte each.
     LDA #65     ; one byte: A9 41
     RTS
A is $41, because 65 is $41 in hexadecimal.
More: docs/manual/language.md
~HEXADECIMAL,HEX,$
Hexadecimal, hex, $
Hexadecimal digits count to 15: 0 to 9, then A (10) to F (15). The left one of
two digits counts sixteens: $41 is 4 times 16 plus 1, so 65. $ says that a
number is hexadecimal. Two digits are exactly one byte, from $00 to $FF (255),
and four digits are an address.
     LDA #$41    ; the same as LDA #65
     RTS
A is $41.
More: docs/manual/language.md
~BINARY,%
Binary, %
Binary digits are 0 and 1, the bits of a byte. % says that a number is binary:
%101 is 4 + 0 + 1, so 5.
     LDA #%101
     RTS
A is $05.
More: docs/manual/language.md
~NEGATIVE NUMBER,SIGNED NUMBER,SIGNED,UNSIGNED,NEGATIVE NUMBERS,SIGNED NUMBERS
Negative number, signed number, signed, unsigned
A byte from 128 to 255 can also mean a number below 0: take 256 from it. So
$FF is -1, and $80 is -128. The byte is the same. Only your program decides
what it means.
     LDA #0
     SEC
     SBC #1      ; 0 - 1
     RTS
A is $FF, and N is set, because bit 7 is set.
More: docs/manual/machine.md
~WORD,HIGH BYTE,LOW BYTE,<,>,WORDS
Word, high byte, low byte, <, >
A word is two bytes, for numbers up to 65,535 such as addresses. The low byte
comes first in memory. < gives the low byte of a number, and > its high byte.
     LDA #<$1234 ; the low byte
     LDX #>$1234 ; the high byte
     RTS
A is $34, and X is $12.
More: docs/manual/language.md
~ASCII,CHARACTER,QUOTE,CHARACTERS,QUOTES
ASCII, character, quote
ASCII gives each character a number: A is $41, 0 is $30, the space is $20. In
a source, 'A' is this number. "A" is the same with bit 7 set, $C1: the screen
shows it as a normal character, and the keyboard gives it.
     LDA #"A"
     JSR $FDED   ; COUT prints it
     RTS
Row 0 is A.
More: docs/manual/machine.md
~TEXT,STRING,TEXTS,STRINGS
Text, string
A text is bytes in memory, one for each character. ASC stores them. A loop
prints them, up to a 0 that you store after the last one.
     LDX #0
    L LDA T,X
     BEQ E
     JSR $FDED
     INX
     BNE L
    E RTS
    T ASC "HI"
     DFB 0
Row 0 is HI.
More: docs/manual/language.md
~INSTRUCTION,MNEMONIC,OPERATION,INSTRUCTIONS,MNEMONICS,OPERATIONS
Instruction, mnemonic, operation
A mnemonic is the name of what the processor does: LDA loads A. With its
operand it is an instruction, which is one step of a run. a2lab help LDA
explains a mnemonic.
More: docs/manual/instructions.md
~OPERAND,OPERANDS
Operand
The operand comes after the operation and says what it works on: a number
after #, or the address of a byte. Some operations have none.
     LDA #5      ; the number 5
     STA $10     ; the byte at the address $10
     TAX         ; no operand
     RTS
X is $05.
More: docs/manual/language.md
~LABEL,NAME,SYMBOL,VARIABLE,LABELS,NAMES,SYMBOLS,VARIABLES
Label, name, symbol, variable
A label is a name in column 1. It means the address of its line, so you can
jump there or load from there without counting bytes. A line without a label
begins with a blank.
     LDA VALUE
     RTS
    VALUE DFB 7
A is $07.
More: docs/manual/language.md
~COMMENT,COMMENTS
Comment
Everything after ; is a comment. It is for people, and the assembler skips it.
A line with * in column 1 is a comment too.
    * This line is a comment.
     LDA #1      ; and so is this text
     RTS
More: docs/manual/language.md
~DIRECTIVE,CONSTANT,DIRECTIVES,CONSTANTS
Directive, constant
A directive is for the assembler, and is not an instruction: ORG sets the
address, EQU gives a name a value, and DFB, DW, ASC and DS store bytes. a2lab
help ORG explains one.
    COUT EQU $FDED
     ORG $300
     LDA #"!"
     JSR COUT
     RTS
Row 0 is !.
More: docs/manual/language.md
~LARGER LANGUAGE,EXPANSION,MACRO,LOCAL LABEL,MACROS,LOCAL LABELS
Larger language, expansion, macro, local label
a2lab also reads sources with local labels such as .LOOP, with * and / in
numbers, and with macros. It turns them into a plain source, the expansion,
which a2lab expand f.s prints. a2 reads plain sources only.
More: docs/manual/larger-language.md
~REGISTER,REGISTERS
Register
The processor has three registers for your bytes: A for arithmetic, X and Y
for counting and indexing. S is the stack pointer, PC is the address of the
next instruction, and P has the flags. The line of registers at the end of a
run shows all of them.
More: docs/manual/machine.md
~A,ACCUMULATOR
A, accumulator
A is the register for arithmetic: LDA loads it, ADC and SBC calculate with it,
STA stores it. The operand A, as in ASL A, means the register itself.
     LDA #2
     ASL A       ; doubles A
     CLC
     ADC #3
     RTS
A is $07.
More: docs/manual/instructions.md
~X,Y,INDEX REGISTER,INDEX REGISTERS
X, Y, index register
X and Y are registers that count and that choose one byte of a table: T,X is
the byte at the address T + X. Count with INX, DEX, INY, DEY.
     LDX #2
     LDA T,X
     RTS
    T DFB 10,20,30
A is $1E, which is 30.
More: docs/manual/instructions.md
~PC,PROGRAM COUNTER
PC, program counter
PC is the address of the next instruction. A branch or a jump changes it.
After a stop it says where the program stopped; FF69 is the normal end.
More: docs/manual/machine.md
~FLAG,P,STATUS,STATUS REGISTER,FLAGS
Flag, P, status, status register
A flag is one bit that remembers something about a result: N (negative), V
(overflow), Z (zero), C (carry), and D and I. P is the byte of all flags, with
bits 5 and 4 always set. Branches test flags: BEQ branches if Z is set.
     LDA #0      ; the result is 0, so Z is set
     RTS
P is $32.
More: docs/manual/machine.md
~C,CARRY,ADD,SUBTRACT
C, carry, add, subtract
The carry is the ninth bit of a sum: ADC adds C too, and sets C if the sum is
above 255. So begin an addition with CLC and a subtraction with SEC. After a
compare, C is set if the register was equal or greater.
     CLC
     LDA #$F0
     ADC #$20    ; $110 is too much for a byte
     RTS
A is $10, and C is set.
More: docs/manual/machine.md
~Z,ZERO
Z, zero
The flag Z is set if the last result was 0, or if a compare found equal bytes.
BEQ branches if Z is set, and BNE if it is clear.
     LDX #1
     DEX         ; X becomes 0
     RTS
X is $00, and Z is set.
More: docs/manual/machine.md
~N,NEGATIVE
N, negative
The flag N is a copy of bit 7 of the last result. BMI branches if N is set,
and BPL if it is clear.
     LDA #$80
     RTS
A is $80, and N is set.
More: docs/manual/machine.md
~V,OVERFLOW
V, overflow
The flag V is set if a sum or difference of signed numbers is below -128 or
above 127. BVS branches if V is set, and BVC if it is clear.
     CLC
     LDA #100
     ADC #100    ; 200 is above 127
     RTS
A is $C8, and V is set.
More: docs/manual/machine.md
~D,DECIMAL FLAG
D, decimal flag
SED sets the flag D, and CLD clears it. With D set, ADC and SBC calculate in
decimal on a real processor. Here they stop the run with DECIMAL: leave out
SED.
More: docs/manual/stops.md
~I,INTERRUPT,INTERRUPTS
I, interrupt
SEI sets the flag I, which keeps interrupts off, and CLI clears it. There are
no interrupts here, so I has no effect.
More: docs/manual/machine.md
~COMPARE,COMPARISON
Compare, comparison
CMP compares A with a byte, CPX X, and CPY Y. It only sets flags, for the
branch after it: BEQ equal, BNE not equal, BCC less, BCS equal or greater.
     LDA #5
     CMP #10
     BCC LESS    ; 5 is less than 10
     LDA #0
    LESS RTS
A is $05.
More: docs/manual/instructions.md
~BRANCH,IF,CONDITION,BRANCHES
Branch, if, condition
A branch continues at its label if a flag has the right value, and otherwise
with the next line. This is the "if" of assembly language.
     LDA #7
     CMP #7
     BNE DONE    ; skips the next line if A is not 7
     LDA #1
    DONE RTS
A is $01.
More: docs/manual/instructions.md
~JUMP,GOTO,JUMPS
Jump, goto
JMP continues at its operand, always. It does not come back; JSR does.
     JMP OVER
     LDA #1      ; is skipped
    OVER RTS
A is $00.
More: docs/manual/instructions.md
~LOOP,FOR,WHILE,LOOPS
Loop, for, while
A loop is a branch back to a label above it. Usually X or Y counts down, and
BNE goes back until the count is 0.
     LDX #3
    L LDA #"*"
     JSR $FDED
     DEX
     BNE L       ; again, until X is 0
     RTS
Row 0 is ***. A loop that never ends stops with LIMIT.
More: docs/manual/language.md
~SUBROUTINE,ROUTINE,FUNCTION,CALL,RETURN,SUBROUTINES,ROUTINES,FUNCTIONS
Subroutine, routine, function, call, return
A subroutine is a part of the program that you call with JSR and that ends
with RTS. Then the program continues after the JSR. Write it after the RTS
that ends your program.
     JSR STAR
     JSR STAR
     RTS         ; the end of the program
    STAR LDA #"*"
     JSR $FDED
     RTS         ; back to the caller
Row 0 is **.
More: docs/manual/instructions.md
~STACK,S,STACK POINTER,PUSH,PULL
Stack, S, stack pointer, push, pull
The stack keeps bytes for later: the last one that was pushed is the first one
that is pulled. PHA pushes A, and PLA pulls it. JSR pushes where to come back,
and RTS pulls it. So pull all that you pushed before RTS. The stack is at
$0100 to $01FF, and S says where the next byte goes.
     LDA #7
     PHA         ; keeps 7
     LDA #0
     PLA         ; A is 7 again
     RTS
A is $07.
More: docs/manual/instructions.md
~CYCLE,CYCLES
Cycle
A cycle is the unit of the processor's time. A real Apple II makes about a
million cycles a second. Each instruction takes 2 to 7.
More: docs/manual/instructions.md
~ADDRESSING MODE,MODE,ADDRESSING MODES,MODES
Addressing mode, mode
An addressing mode is how the operand says what is worked on:
  #5: immediate; the number 5
  $10: zero page; the byte at the address $10
  $320: absolute; the byte at the address $320
  T,X: indexed; the byte at T + X
  ($10),Y: indirect; the byte at the address stored at $10, plus Y
  a label, after a branch: relative; where to continue
  nothing: implied; what the mnemonic names
More: docs/manual/instructions.md
~IMMEDIATE,HASH,#
Immediate, hash, #
# means the number itself. Without #, the number is an address: LDA #5 loads
5, but LDA 5 loads the byte at the address 5.
     LDA #5
     RTS
A is $05.
More: docs/manual/instructions.md
~IMPLIED
Implied
An instruction without an operand: its name says what it works on. INX works
on X, RTS on the stack.
More: docs/manual/instructions.md
~ZERO PAGE
Zero page
The zero page is the addresses $00 to $FF. An operand there needs one byte
instead of two, so instructions are shorter and faster, and pointers must be
there. $20 to $3F belong to the screen and the keyboard. $06 to $09 are free
on a real Apple II too. Define names of the zero page above the lines that use
them.
    Z EQU $06
     LDA #9
     STA Z       ; 85 06
     RTS
A is $09.
More: docs/manual/language.md
~ABSOLUTE
Absolute
The operand is an address of two bytes, anywhere in memory.
     LDA #9
     STA $0320   ; 8D 20 03
     RTS
A is $09.
More: docs/manual/instructions.md
~INDEXED,INDEX,TABLE,ARRAY,ARRAYS
Indexed, index, table, array
The register X or Y is added to the address. So one instruction in a loop can
reach each byte of a table in turn.
     LDY #1
     LDA T,Y
     RTS
    T DFB 5,6,7
A is $06.
More: docs/manual/instructions.md
~INDIRECT,POINTER,POINTERS
Indirect, pointer
A pointer is two bytes of the zero page that hold an address, low byte first.
(P),Y is the byte at this address plus Y. JMP (V) continues at the address
that is stored at V.
    P EQU $06
     LDA #<T
     STA P
     LDA #>T
     STA P+1     ; P points to T
     LDY #2
     LDA (P),Y
     RTS
    T DFB 5,6,7
A is $07.
More: docs/manual/instructions.md
~RELATIVE
Relative
Only branches have this mode. You write a label, and the assembler stores the
distance to it in one byte. So the label must be near: at most 128 bytes
before or 127 after the next instruction. A branch that is too far is the
error E9.
More: docs/manual/refusals.md
~ADDRESS,MEMORY,RAM,ADDRESSES
Address, memory, RAM
Memory is a row of 65,536 bytes, and the number of a byte is its address,
$0000 to $FFFF. Your program and its data are in RAM, below $C000. LDA reads a
byte, and STA writes one.
     LDA #7
     STA $320
     LDX $320
     RTS
X is $07.
More: docs/manual/machine.md
~PAGE,PAGES
Page
A page is 256 bytes whose addresses have the same high byte: page 3 is $0300
to $03FF. Page 0 is the zero page, and page 1 is the stack. The screen is in
pages 4 to 7, which together are text page 1.
More: docs/manual/machine.md
~SCREEN CODE,SCREEN CODES
Screen code
The byte on the screen decides what is shown: $80 to $FF normal, $40 to $7F
flashing, $00 to $3F inverse. Six bits choose the character: A is $C1 normal,
$41 flashing and $01 inverse. "A" in a source is the normal one. There are no
small letters.
More: docs/manual/machine.md
~INVERSE,FLASHING,NORMAL
Inverse, flashing, normal
Inverse characters are black on white. Flashing ones change between that and
normal. Call SETINV ($FE80) before you print, and SETNORM ($FE84) after it; or
store the bytes yourself. --attr shows which are which.
     JSR $FE80   ; SETINV
     LDA #"A"
     JSR $FDED
     JMP $FE84   ; SETNORM, and the end
Row 0 is A, and in memory it is $01.
More: docs/manual/machine.md
~KEYBOARD,KEY,INPUT
Keyboard, key, input
$C000 gives the key, with bit 7 set while it waits. Any access of $C010 takes
it. RDKEY ($FD0C) waits for a key and takes it. For a run, give the keys
first, as in a2lab run --keys A f.s. With a2lab play f.s you type them while
it runs.
    W LDA $C000
     BPL W       ; no key yet
     STA $C010   ; takes it
     JSR $FDED
     RTS
With ./a2 run f.s --keys A, row 0 is A.
More: docs/manual/machine.md
~SERVICE,MONITOR,SERVICES
Service, Monitor
A service is a subroutine that the machine already has, such as COUT ($FDED),
which prints the character in A. The Monitor is the program in the ROM of an
Apple II that has them. a2lab help COUT explains one.
More: docs/manual/services.md
"##;
