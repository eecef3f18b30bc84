// The opcodes of the 6502: operation, addressing mode, length and base cycles of each of the 256 (document 02, Wish 5).
#![tactic(auto)]

ghost use Rattle.std.specs.Prelude.{◌≡◌, ◌/◌, ◌%◌, ◌<◌, get_or};
ghost use Rattle.cpu_opcodes.specs.Table.{opcodes};
ghost use Rattle.cpu_opcodes.specs.Opcodes.{operation_numbered, mode_numbered, operation_of, mode_of, length_of, cycles_of, is_jsr};

// The operations that read a byte and change registers and flags.
#[derive(Clone, Copy)]
pub enum ReadOperation {
    Lda,
    Ldx,
    Ldy,
    And,
    Ora,
    Eor,
    Adc,
    Sbc,
    Cmp,
    Cpx,
    Cpy,
    Bit,
}

// The operations that store a register.
#[derive(Clone, Copy)]
pub enum StoreOperation {
    Sta,
    Stx,
    Sty,
}

// The operations that change a byte, in memory or in A.
#[derive(Clone, Copy)]
pub enum ModifyOperation {
    Asl,
    Lsr,
    Rol,
    Ror,
    Inc,
    Dec,
}

// The operations on registers and flags alone.
#[derive(Clone, Copy)]
pub enum ImpliedOperation {
    Clc,
    Sec,
    Cli,
    Sei,
    Cld,
    Sed,
    Clv,
    Nop,
    Tax,
    Tay,
    Txa,
    Tya,
    Tsx,
    Txs,
    Inx,
    Iny,
    Dex,
    Dey,
}

// The branches, each on one flag.
#[derive(Clone, Copy)]
pub enum BranchOperation {
    Bpl,
    Bmi,
    Bvc,
    Bvs,
    Bcc,
    Bcs,
    Bne,
    Beq,
}

// What an opcode does, by the data sheet's mnemonics. ModifyA is a shift or rotation of A.
#[derive(Clone, Copy)]
pub enum Operation {
    Read(ReadOperation),
    Store(StoreOperation),
    Modify(ModifyOperation),
    ModifyA(ModifyOperation),
    Implied(ImpliedOperation),
    Branch(BranchOperation),
    Jmp,
    Jsr,
    Rts,
    Rti,
    Brk,
    Pha,
    Php,
    Pla,
    Plp,
    Undocumented,
}

// The addressing modes by the data sheet's names, and one of their own for opcodes that are not documented.
#[derive(Clone, Copy)]
pub enum Mode {
    Implied,
    Accumulator,
    Immediate,
    ZeroPage,
    ZeroPageX,
    ZeroPageY,
    Absolute,
    AbsoluteX,
    AbsoluteY,
    AbsoluteIndirect,
    IndexedIndirect,
    IndirectIndexed,
    Relative,
    Undocumented,
}

// An entry in five hex digits: operation (two), addressing mode, length, base cycles; 3CD00 where no opcode is documented.
// Operations and modes are numbered from 0 in the order in which specs/Opcodes.antt lists them.
const OPCODES: [u32; 256] = [
    0x37017, // 00 BRK
    0x04A26, // 01 ORA (zp,X)
    0x3CD00, // 02
    0x3CD00, // 03
    0x3CD00, // 04
    0x04323, // 05 ORA zp
    0x0F325, // 06 ASL zp
    0x3CD00, // 07
    0x39013, // 08 PHP
    0x04222, // 09 ORA #imm
    0x15112, // 0A ASL A
    0x3CD00, // 0B
    0x3CD00, // 0C
    0x04634, // 0D ORA abs
    0x0F636, // 0E ASL abs
    0x3CD00, // 0F
    0x2BC22, // 10 BPL rel
    0x04B25, // 11 ORA (zp),Y
    0x3CD00, // 12
    0x3CD00, // 13
    0x3CD00, // 14
    0x04424, // 15 ORA zp,X
    0x0F426, // 16 ASL zp,X
    0x3CD00, // 17
    0x19012, // 18 CLC
    0x04834, // 19 ORA abs,Y
    0x3CD00, // 1A
    0x3CD00, // 1B
    0x3CD00, // 1C
    0x04734, // 1D ORA abs,X
    0x0F737, // 1E ASL abs,X
    0x3CD00, // 1F
    0x34636, // 20 JSR abs
    0x03A26, // 21 AND (zp,X)
    0x3CD00, // 22
    0x3CD00, // 23
    0x0B323, // 24 BIT zp
    0x03323, // 25 AND zp
    0x11325, // 26 ROL zp
    0x3CD00, // 27
    0x3B014, // 28 PLP
    0x03222, // 29 AND #imm
    0x17112, // 2A ROL A
    0x3CD00, // 2B
    0x0B634, // 2C BIT abs
    0x03634, // 2D AND abs
    0x11636, // 2E ROL abs
    0x3CD00, // 2F
    0x2CC22, // 30 BMI rel
    0x03B25, // 31 AND (zp),Y
    0x3CD00, // 32
    0x3CD00, // 33
    0x3CD00, // 34
    0x03424, // 35 AND zp,X
    0x11426, // 36 ROL zp,X
    0x3CD00, // 37
    0x1A012, // 38 SEC
    0x03834, // 39 AND abs,Y
    0x3CD00, // 3A
    0x3CD00, // 3B
    0x3CD00, // 3C
    0x03734, // 3D AND abs,X
    0x11737, // 3E ROL abs,X
    0x3CD00, // 3F
    0x36016, // 40 RTI
    0x05A26, // 41 EOR (zp,X)
    0x3CD00, // 42
    0x3CD00, // 43
    0x3CD00, // 44
    0x05323, // 45 EOR zp
    0x10325, // 46 LSR zp
    0x3CD00, // 47
    0x38013, // 48 PHA
    0x05222, // 49 EOR #imm
    0x16112, // 4A LSR A
    0x3CD00, // 4B
    0x33633, // 4C JMP abs
    0x05634, // 4D EOR abs
    0x10636, // 4E LSR abs
    0x3CD00, // 4F
    0x2DC22, // 50 BVC rel
    0x05B25, // 51 EOR (zp),Y
    0x3CD00, // 52
    0x3CD00, // 53
    0x3CD00, // 54
    0x05424, // 55 EOR zp,X
    0x10426, // 56 LSR zp,X
    0x3CD00, // 57
    0x1B012, // 58 CLI
    0x05834, // 59 EOR abs,Y
    0x3CD00, // 5A
    0x3CD00, // 5B
    0x3CD00, // 5C
    0x05734, // 5D EOR abs,X
    0x10737, // 5E LSR abs,X
    0x3CD00, // 5F
    0x35016, // 60 RTS
    0x06A26, // 61 ADC (zp,X)
    0x3CD00, // 62
    0x3CD00, // 63
    0x3CD00, // 64
    0x06323, // 65 ADC zp
    0x12325, // 66 ROR zp
    0x3CD00, // 67
    0x3A014, // 68 PLA
    0x06222, // 69 ADC #imm
    0x18112, // 6A ROR A
    0x3CD00, // 6B
    0x33935, // 6C JMP (abs)
    0x06634, // 6D ADC abs
    0x12636, // 6E ROR abs
    0x3CD00, // 6F
    0x2EC22, // 70 BVS rel
    0x06B25, // 71 ADC (zp),Y
    0x3CD00, // 72
    0x3CD00, // 73
    0x3CD00, // 74
    0x06424, // 75 ADC zp,X
    0x12426, // 76 ROR zp,X
    0x3CD00, // 77
    0x1C012, // 78 SEI
    0x06834, // 79 ADC abs,Y
    0x3CD00, // 7A
    0x3CD00, // 7B
    0x3CD00, // 7C
    0x06734, // 7D ADC abs,X
    0x12737, // 7E ROR abs,X
    0x3CD00, // 7F
    0x3CD00, // 80
    0x0CA26, // 81 STA (zp,X)
    0x3CD00, // 82
    0x3CD00, // 83
    0x0E323, // 84 STY zp
    0x0C323, // 85 STA zp
    0x0D323, // 86 STX zp
    0x3CD00, // 87
    0x2A012, // 88 DEY
    0x3CD00, // 89
    0x23012, // 8A TXA
    0x3CD00, // 8B
    0x0E634, // 8C STY abs
    0x0C634, // 8D STA abs
    0x0D634, // 8E STX abs
    0x3CD00, // 8F
    0x2FC22, // 90 BCC rel
    0x0CB26, // 91 STA (zp),Y
    0x3CD00, // 92
    0x3CD00, // 93
    0x0E424, // 94 STY zp,X
    0x0C424, // 95 STA zp,X
    0x0D524, // 96 STX zp,Y
    0x3CD00, // 97
    0x24012, // 98 TYA
    0x0C835, // 99 STA abs,Y
    0x26012, // 9A TXS
    0x3CD00, // 9B
    0x3CD00, // 9C
    0x0C735, // 9D STA abs,X
    0x3CD00, // 9E
    0x3CD00, // 9F
    0x02222, // A0 LDY #imm
    0x00A26, // A1 LDA (zp,X)
    0x01222, // A2 LDX #imm
    0x3CD00, // A3
    0x02323, // A4 LDY zp
    0x00323, // A5 LDA zp
    0x01323, // A6 LDX zp
    0x3CD00, // A7
    0x22012, // A8 TAY
    0x00222, // A9 LDA #imm
    0x21012, // AA TAX
    0x3CD00, // AB
    0x02634, // AC LDY abs
    0x00634, // AD LDA abs
    0x01634, // AE LDX abs
    0x3CD00, // AF
    0x30C22, // B0 BCS rel
    0x00B25, // B1 LDA (zp),Y
    0x3CD00, // B2
    0x3CD00, // B3
    0x02424, // B4 LDY zp,X
    0x00424, // B5 LDA zp,X
    0x01524, // B6 LDX zp,Y
    0x3CD00, // B7
    0x1F012, // B8 CLV
    0x00834, // B9 LDA abs,Y
    0x25012, // BA TSX
    0x3CD00, // BB
    0x02734, // BC LDY abs,X
    0x00734, // BD LDA abs,X
    0x01834, // BE LDX abs,Y
    0x3CD00, // BF
    0x0A222, // C0 CPY #imm
    0x08A26, // C1 CMP (zp,X)
    0x3CD00, // C2
    0x3CD00, // C3
    0x0A323, // C4 CPY zp
    0x08323, // C5 CMP zp
    0x14325, // C6 DEC zp
    0x3CD00, // C7
    0x28012, // C8 INY
    0x08222, // C9 CMP #imm
    0x29012, // CA DEX
    0x3CD00, // CB
    0x0A634, // CC CPY abs
    0x08634, // CD CMP abs
    0x14636, // CE DEC abs
    0x3CD00, // CF
    0x31C22, // D0 BNE rel
    0x08B25, // D1 CMP (zp),Y
    0x3CD00, // D2
    0x3CD00, // D3
    0x3CD00, // D4
    0x08424, // D5 CMP zp,X
    0x14426, // D6 DEC zp,X
    0x3CD00, // D7
    0x1D012, // D8 CLD
    0x08834, // D9 CMP abs,Y
    0x3CD00, // DA
    0x3CD00, // DB
    0x3CD00, // DC
    0x08734, // DD CMP abs,X
    0x14737, // DE DEC abs,X
    0x3CD00, // DF
    0x09222, // E0 CPX #imm
    0x07A26, // E1 SBC (zp,X)
    0x3CD00, // E2
    0x3CD00, // E3
    0x09323, // E4 CPX zp
    0x07323, // E5 SBC zp
    0x13325, // E6 INC zp
    0x3CD00, // E7
    0x27012, // E8 INX
    0x07222, // E9 SBC #imm
    0x20012, // EA NOP
    0x3CD00, // EB
    0x09634, // EC CPX abs
    0x07634, // ED SBC abs
    0x13636, // EE INC abs
    0x3CD00, // EF
    0x32C22, // F0 BEQ rel
    0x07B25, // F1 SBC (zp),Y
    0x3CD00, // F2
    0x3CD00, // F3
    0x3CD00, // F4
    0x07424, // F5 SBC zp,X
    0x13426, // F6 INC zp,X
    0x3CD00, // F7
    0x1E012, // F8 SED
    0x07834, // F9 SBC abs,Y
    0x3CD00, // FA
    0x3CD00, // FB
    0x3CD00, // FC
    0x07734, // FD SBC abs,X
    0x13737, // FE INC abs,X
    0x3CD00, // FF
];

// The table, for the caller to lend: a constant array would be built anew at each use.
pub fn table() -> [u32; 256]
    ensures { result ≡ opcodes }
{
    OPCODES
}

// The entry of an opcode.
pub fn entry(table: &[u32; 256], opcode: u8) -> u32
    ensures { result ≡ get_or table.now opcode 0 }
{
    table[opcode as usize]
}

// All numbers of six bits have an arm, so that the jump needs no test of its range.
fn operation_numbered(k: u8) -> Operation
    ensures { result ≡ operation_numbered k }
{
    match k {
        0 => Operation::Read(ReadOperation::Lda),
        1 => Operation::Read(ReadOperation::Ldx),
        2 => Operation::Read(ReadOperation::Ldy),
        3 => Operation::Read(ReadOperation::And),
        4 => Operation::Read(ReadOperation::Ora),
        5 => Operation::Read(ReadOperation::Eor),
        6 => Operation::Read(ReadOperation::Adc),
        7 => Operation::Read(ReadOperation::Sbc),
        8 => Operation::Read(ReadOperation::Cmp),
        9 => Operation::Read(ReadOperation::Cpx),
        10 => Operation::Read(ReadOperation::Cpy),
        11 => Operation::Read(ReadOperation::Bit),
        12 => Operation::Store(StoreOperation::Sta),
        13 => Operation::Store(StoreOperation::Stx),
        14 => Operation::Store(StoreOperation::Sty),
        15 => Operation::Modify(ModifyOperation::Asl),
        16 => Operation::Modify(ModifyOperation::Lsr),
        17 => Operation::Modify(ModifyOperation::Rol),
        18 => Operation::Modify(ModifyOperation::Ror),
        19 => Operation::Modify(ModifyOperation::Inc),
        20 => Operation::Modify(ModifyOperation::Dec),
        21 => Operation::ModifyA(ModifyOperation::Asl),
        22 => Operation::ModifyA(ModifyOperation::Lsr),
        23 => Operation::ModifyA(ModifyOperation::Rol),
        24 => Operation::ModifyA(ModifyOperation::Ror),
        25 => Operation::Implied(ImpliedOperation::Clc),
        26 => Operation::Implied(ImpliedOperation::Sec),
        27 => Operation::Implied(ImpliedOperation::Cli),
        28 => Operation::Implied(ImpliedOperation::Sei),
        29 => Operation::Implied(ImpliedOperation::Cld),
        30 => Operation::Implied(ImpliedOperation::Sed),
        31 => Operation::Implied(ImpliedOperation::Clv),
        32 => Operation::Implied(ImpliedOperation::Nop),
        33 => Operation::Implied(ImpliedOperation::Tax),
        34 => Operation::Implied(ImpliedOperation::Tay),
        35 => Operation::Implied(ImpliedOperation::Txa),
        36 => Operation::Implied(ImpliedOperation::Tya),
        37 => Operation::Implied(ImpliedOperation::Tsx),
        38 => Operation::Implied(ImpliedOperation::Txs),
        39 => Operation::Implied(ImpliedOperation::Inx),
        40 => Operation::Implied(ImpliedOperation::Iny),
        41 => Operation::Implied(ImpliedOperation::Dex),
        42 => Operation::Implied(ImpliedOperation::Dey),
        43 => Operation::Branch(BranchOperation::Bpl),
        44 => Operation::Branch(BranchOperation::Bmi),
        45 => Operation::Branch(BranchOperation::Bvc),
        46 => Operation::Branch(BranchOperation::Bvs),
        47 => Operation::Branch(BranchOperation::Bcc),
        48 => Operation::Branch(BranchOperation::Bcs),
        49 => Operation::Branch(BranchOperation::Bne),
        50 => Operation::Branch(BranchOperation::Beq),
        51 => Operation::Jmp,
        52 => Operation::Jsr,
        53 => Operation::Rts,
        54 => Operation::Rti,
        55 => Operation::Brk,
        56 => Operation::Pha,
        57 => Operation::Php,
        58 => Operation::Pla,
        59 => Operation::Plp,
        60 => Operation::Undocumented,
        61 => Operation::Undocumented,
        62 => Operation::Undocumented,
        63 => Operation::Undocumented,
        _ => Operation::Undocumented,
    }
}

// The operation of an entry.
pub fn operation_of(entry: u32) -> Operation
    ensures { result ≡ operation_of entry }
{
    operation_numbered((entry / 4096 % 64) as u8)
}

// All numbers of four bits have an arm.
fn mode_numbered(k: u8) -> Mode
    ensures { result ≡ mode_numbered k }
{
    match k {
        0 => Mode::Implied,
        1 => Mode::Accumulator,
        2 => Mode::Immediate,
        3 => Mode::ZeroPage,
        4 => Mode::ZeroPageX,
        5 => Mode::ZeroPageY,
        6 => Mode::Absolute,
        7 => Mode::AbsoluteX,
        8 => Mode::AbsoluteY,
        9 => Mode::AbsoluteIndirect,
        10 => Mode::IndexedIndirect,
        11 => Mode::IndirectIndexed,
        12 => Mode::Relative,
        13 => Mode::Undocumented,
        14 => Mode::Undocumented,
        15 => Mode::Undocumented,
        _ => Mode::Undocumented,
    }
}

// The addressing mode of an entry.
pub fn mode_of(entry: u32) -> Mode
    ensures { result ≡ mode_of entry }
{
    mode_numbered((entry / 256 % 16) as u8)
}

// The length of an entry, in bytes.
pub fn length_of(entry: u32) -> u8
    ensures { result ≡ length_of entry }
{
    (entry / 16 % 16) as u8
}

// The base cycles of an entry.
pub fn cycles_of(entry: u32) -> u8
    ensures { (result ≡ cycles_of entry) × (result < 16) }
{
    (entry % 16) as u8
}

// Whether an entry is that of JSR, which fetches its operand itself.
pub fn is_jsr(entry: u32) -> bool
    ensures { result ≡ is_jsr entry }
{
    entry / 4096 % 64 == 52
}
