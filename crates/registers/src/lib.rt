// The registers: names of addresses and bits, and the table.
#![tactic(auto)]

ghost use Rattle.std.specs.Prelude.{◌≡◌};
ghost use Rattle.registers.specs.Table.{updated as updated_of, unpacked as unpacked_of, row_of, reset_value, write_mask, is_register, resets as resets_of};

// Addresses, after the data sheet's names, without blanks and slashes. DACH1 to DACH12 stand between DACH0 and DACH13.
pub const PT0: u8 = 0x00;

pub const PT1: u8 = 0x01;

pub const PT2DIR: u8 = 0x02;

pub const PT2: u8 = 0x03;

pub const PT3: u8 = 0x04;

pub const MDCON: u8 = 0x05;

pub const HVCON: u8 = 0x06;

pub const HCNTL: u8 = 0x07;

pub const HCNTH: u8 = 0x08;

pub const VCNTL: u8 = 0x09;

pub const VCNTH: u8 = 0x0a;

pub const SYNCON: u8 = 0x0b;

pub const ENDAC: u8 = 0x0c;

pub const AD0: u8 = 0x0d;

pub const AD1: u8 = 0x0e;

pub const IEX: u8 = 0x0f;

pub const IRQX: u8 = 0x10;

pub const CLRFLG: u8 = 0x11;

pub const CLRWDT: u8 = 0x12;

pub const IIADR: u8 = 0x13;

pub const IIDAT: u8 = 0x14;

pub const IISTS: u8 = 0x15;

pub const BT: u8 = 0x16;

pub const BTCON: u8 = 0x17;

pub const DACH0: u8 = 0x18;

pub const DACH13: u8 = 0x25;

// Bits that a rule names, by their number. Those of MDCON:
pub const HSEL: u8 = 2;

pub const MD12: u8 = 0;

// Those of HVCON:
pub const HCNTOV: u8 = 7;

pub const VCNTOV: u8 = 6;

pub const HSYNCI: u8 = 5;

pub const VSYNCI: u8 = 4;

pub const HPOLI: u8 = 3;

pub const VPOLI: u8 = 2;

// Those of IEX and IRQX:
pub const INTS: u8 = 5;

pub const INTD: u8 = 4;

pub const INTA: u8 = 3;

pub const INTR: u8 = 2;

pub const INTE: u8 = 1;

pub const INTV: u8 = 0;

// Those of CLRFLG:
pub const CLRHOV: u8 = 7;

pub const CLRVOV: u8 = 6;

// Those of IISTS:
pub const START: u8 = 5;

pub const STOP: u8 = 4;

pub const ENDDC: u8 = 3;

pub const TRX: u8 = 2;

pub const RXAK: u8 = 1;

pub const TXAK: u8 = 0;

// Those of BTCON:
pub const TBS: u8 = 1;

pub const ENBT: u8 = 0;

// What a register is at reset, the bits that a write changes and those that a read shows, and which of the two it takes.
// A write mask of 00 does not mean that a write is refused.
#[derive(Clone, Copy)]
pub struct Row {
    pub reset: u8,
    pub write: u8,
    pub read: u8,
    pub writable: bool,
    pub readable: bool,
}

// A row a register, as one number: two hex digits each of reset value, write mask and read mask, then 02 where writes are taken and 01
// where reads are, together 03. A number, since a constant array is built at each use: rows of numbers cost a third of rows of structs.
const TABLE: [u32; 38] = [
    0xff_ff_ff_03, // 00 PT0
    0x7f_3f_7f_03, // 01 PT1
    0xff_ff_00_02, // 02 PT2DIR
    0xff_ff_ff_03, // 03 PT2
    0x03_03_03_03, // 04 PT3
    0x07_0f_03_03, // 05 MDCON
    0x2f_03_fc_03, // 06 HVCON
    0x00_00_ff_01, // 07 HCNTL
    0x00_00_0f_01, // 08 HCNTH
    0x00_00_ff_01, // 09 VCNTL
    0x00_00_0f_01, // 0A VCNTH
    0xff_df_00_02, // 0B SYNCON
    0xff_ff_00_02, // 0C ENDAC
    0xc0_00_c0_03, // 0D AD0
    0x00_00_00_01, // 0E AD1
    0x00_3f_00_02, // 0F IEX
    0x00_00_3f_01, // 10 IRQX
    0x00_00_00_02, // 11 CLRFLG
    0x00_00_00_02, // 12 CLRWDT
    0xff_fe_00_02, // 13 IIADR
    0x00_ff_ff_03, // 14 IIDAT
    0x08_0d_3e_03, // 15 IISTS
    0x00_ff_00_02, // 16 BT
    0x03_03_00_02, // 17 BTCON
    0x80_ff_ff_03, // 18 DACH0
    0x80_ff_ff_03, // 19 DACH1
    0x80_ff_ff_03, // 1A DACH2
    0x80_ff_ff_03, // 1B DACH3
    0x80_ff_ff_03, // 1C DACH4
    0x80_ff_ff_03, // 1D DACH5
    0x80_ff_ff_03, // 1E DACH6
    0x80_ff_ff_03, // 1F DACH7
    0x80_ff_ff_03, // 20 DACH8
    0x80_ff_ff_03, // 21 DACH9
    0x80_ff_ff_03, // 22 DACH10
    0x80_ff_ff_03, // 23 DACH11
    0x80_ff_ff_03, // 24 DACH12
    0x80_ff_ff_03, // 25 DACH13
];

// The address is that of a register.
#[tactic(auto, unfolding(crate::specs::Table::is_register))]
pub fn is_register(address: u8) -> bool
    ensures { result ≡ is_register address }
{
    address < 38
}

// The row that a number of the table is.
fn unpacked(n: u32) -> Row
    ensures { result ≡ unpacked_of n }
{
    let [reset, write, read, taken] = n.to_be_bytes();
    Row {
        reset,
        write,
        read,
        writable: 1 < taken,
        readable: taken % 2 == 1,
    }
}

// The row of an address, for a read, a write or a reset of its register; one past the table takes neither write nor read.
pub fn row_of(address: u8) -> Row
    ensures { result ≡ row_of address }
{
    // By index: over `TABLE.get(..)` with `unwrap_or(0)` the proof did not close.
    let i = usize::from(address);
    if i < 38 {
        unpacked(TABLE[i])
    } else {
        unpacked(0)
    }
}

// The value that a reset gives.
#[tactic(auto, unfolding(crate::specs::Table::reset_value))]
pub fn reset_value(address: u8) -> u8
    ensures { result ≡ reset_value address }
{
    row_of(address).reset
}

// The bits that a write changes, register by register in the order of the sheet.
#[tactic(auto, using(crate::proofs::Rules::mask_choice_lem), unfolding(crate::specs::Table::mask_choice))]
pub fn write_mask(address: u8) -> u8
    ensures { result ≡ write_mask address }
{
    match address {
        PT0 => 0xff,
        PT1 => 0x3f, // P16 is an input, and there is no P17
        PT2DIR => 0xff,
        PT2 => 0xff,
        PT3 => 0x03,
        MDCON => 0x0f,
        HVCON => 0x03, // HPOLO and VPOLO
        HCNTL => 0x00, // refused
        HCNTH => 0x00, // refused
        VCNTL => 0x00, // refused
        VCNTH => 0x00, // refused
        SYNCON => 0xdf, // bit 5 is reserved
        ENDAC => 0xff,
        AD0 => 0x00, // taken, and changes nothing
        AD1 => 0x00, // refused
        IEX => 0x3f,
        IRQX => 0x00, // refused
        CLRFLG => 0x00, // taken: clears flags, stores nothing
        CLRWDT => 0x00, // taken: 55H clears the watchdog, stores nothing
        IIADR => 0xfe,
        IIDAT => 0xff,
        IISTS => 0x0d, // ENDDC, TRX, TXAK; START and STOP have a rule of their own
        BT => 0xff,
        BTCON => 0x03,
        DACH0..=DACH13 => 0xff,
        _ => 0x00, // above 25H: no register
    }
}

// The byte that a write leaves.
pub fn updated(address: u8, old: u8, byte: u8) -> u8
    ensures { result ≡ updated_of address old byte }
{
    bits::merge(write_mask(address), old, byte)
}

// All registers at reset.
pub fn resets() -> [u8; 38]
    ensures { result ≡ resets_of }
{
    let mut registers = [0u8; 38];
    for i in 0..38u8 {
        registers[usize::from(i)] = reset_value(i);
    }
    registers
}
