// The address map of the CPU (document 02, Wish 5).
#![tactic(auto)]

ghost use Rattle.std.specs.Prelude.{◌≡◌, ◌+◌, ◌<◌, get_or};
ghost use Rattle.cpu_memory.specs.Memory.{place, known as known_of, memory, stack as stack_of, stack_place, below as below_of, above as above_of, is_stack_place, after_push, rom_word, Reaches, LoadedCase, number_at, byte_at, number_pushed, byte_pushed};

// What a read gives: a byte, or the number of its refusal.
#[derive(Clone, Copy)]
pub enum Loaded {
    Byte(u8),
    Refused(u8),
}

// Where an address leads.
#[derive(Clone, Copy)]
pub enum Place {
    Register(usize),
    Ram(usize),
    Rom(usize),
    Unmapped,
}

// What an instruction stores: nothing, a byte at an address, or one to three bytes pushed from S down.
#[derive(Clone, Copy)]
pub enum Store {
    Nothing,
    Byte(u16, u8),
    PushOne(u8, u8),
    PushTwo(u8, u8, u8),
    PushThree(u8, u8, u8, u8),
}

// Where an address leads. ROM is asked for first, and RAM before registers, as they are commonest: a `match` on ranges is compiled to
// a search from the lowest one, and an instruction of firmware then takes 126 machine instructions in place of 106.
#[tactic(auto, unfolding(crate::specs::Memory::place))]
pub fn place_of(a: u16) -> Place
    ensures { (result ≡ place a) × Reaches result }
{
    if a >= 0xA000 {
        Place::Rom(usize::from(a) - 0xA000)
    } else if a < 0x180 {
        if a >= 0x80 {
            Place::Ram(usize::from(a) - 0x80)
        } else if a < 0x26 {
            Place::Register(usize::from(a))
        } else {
            Place::Unmapped
        }
    } else if a < 0x200 {
        Place::Ram(usize::from(a) - 0x180)
    } else {
        Place::Unmapped
    }
}

#[tactic(auto, unfolding(crate::specs::Memory::known))]
fn known(v: u16) -> Loaded
    ensures { result ≡ known_of v }
{
    match u8::try_from(v) {
        Ok(b) => Loaded::Byte(b),
        Err(_) => Loaded::Refused((v % 256) as u8),
    }
}

// A place of ROM; 0 past its end.
pub fn rom_byte(rom: &[u8], i: usize) -> u8
    ensures { result ≡ get_or rom.now i 0 }
{
    rom.get(i).copied().unwrap_or(0)
}

// A read at an address: RAM, ROM, or what is known of a register.
#[tactic(auto, unfolding(crate::specs::Memory::memory, crate::specs::Memory::known))]
pub fn load(seen: &[u16; 38], ram: &[u8; 256], rom: &[u8], a: u16) -> Loaded
    ensures { (result ≡ memory seen.now ram.now rom.now a)
        × LoadedCase (number_at seen.now (place a)) (byte_at seen.now ram.now rom.now (place a)) result }
{
    match place_of(a) {
        Place::Register(r) => known(seen[r]),
        Place::Ram(i) => Loaded::Byte(ram[i]),
        Place::Rom(i) => Loaded::Byte(rom_byte(rom, i)),
        Place::Unmapped => Loaded::Refused(21),
    }
}

// The vector at two places of ROM.
pub fn rom_word(rom: &[u8], i: u16) -> u16
    ensures { result ≡ rom_word rom.now i }
{
    let l = u16::from(rom_byte(rom, usize::from(i)));
    let h = u16::from(rom_byte(rom, usize::from(i) + 1));
    h * 256 + l
}

// S after a push.
pub fn below(s: u8) -> u8
    ensures { result ≡ below_of s }
{
    s.wrapping_sub(1)
}

// S after a pull.
pub fn above(s: u8) -> u8
    ensures { result ≡ above_of s }
{
    s.wrapping_add(1)
}

// The address of a stack place.
pub fn stack(s: u8) -> u16
    ensures { result ≡ stack_of s }
{
    u16::from(s) + 256
}

// The place in RAM of a stack place.
#[tactic(auto, unfolding(crate::specs::Memory::stack_place))]
pub fn stack_place(s: u8) -> usize
    ensures { (result ≡ stack_place s) × (result < 256) }
{
    usize::from(s.wrapping_add(128))
}

fn is_stack_place(s: u8, a: u16) -> bool
    ensures { result ≡ is_stack_place s (place a) }
{
    match place_of(a) {
        Place::Ram(i) => i == stack_place(s),
        _ => false,
    }
}

// A read after two bytes were pushed from S down, the first of them h.
#[tactic(auto, unfolding(crate::specs::Memory::after_push, crate::specs::Memory::memory, crate::specs::Memory::known))]
pub fn load_after_push(
    seen: &[u16; 38],
    ram: &[u8; 256],
    rom: &[u8],
    s: u8,
    h: u8,
    l: u8,
    a: u16,
) -> Loaded
    ensures { (result ≡ after_push (below_of s) l (after_push s h (memory seen.now ram.now rom.now)) a)
        × LoadedCase (number_pushed (below_of s) (number_pushed s (number_at seen.now)) (place a)) (byte_pushed (below_of s) l (byte_pushed s h (byte_at seen.now ram.now rom.now)) (place a)) result }
{
    if is_stack_place(below(s), a) {
        return Loaded::Byte(l);
    }
    if is_stack_place(s, a) {
        return Loaded::Byte(h);
    }
    load(seen, ram, rom, a)
}
