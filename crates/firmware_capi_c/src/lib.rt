// The firmware call as a static library: a crate that others stand on cannot be one, and theorems stand on `firmware_capi`.
#![tactic(auto)]

ghost use Rattle.std.specs.Prelude.{◌≡◌};
ghost use Rattle.firmware_capi.specs.Call.{left, firmware_in};

// Runs `instructions` instructions of the firmware in `rom` from the CPU, with the events between them, and gives 0 or the number of the
// refusal of an instruction. Refused before anything runs (15, 8, 22, 7), nothing is touched.
#[unsafe(no_mangle)]
pub extern "C" fn nt6861_firmware(
    cpu: &mut [u8],
    ram: &mut [u8],
    rom: &[u8],
    area: &mut [u8],
    events: &[u64],
    answers: &mut [u32],
    instructions: u32,
    counts: &mut [u32],
) -> u8
    ensures { left result cpu.new ram.new area.new answers.new counts.new
        ≡ firmware_in cpu.old ram.old rom.now area.old events.now answers.old instructions counts.old }
{
    firmware_capi::nt6861_firmware(cpu, ram, rom, area, events, answers, instructions, counts)
}
