// The dump of a run: each word to the chip, and what is watched of the chip after it to the dump.
#![tactic(auto)]

ghost use Rattle.std.specs.Prelude.{◌≡◌, ◌*◌, ◌≤◌, length};
ghost use Rattle.wave_write.specs.Lines.{text, lines};
ghost use Rattle.wave_write.specs.Wrote.{Wrote, begin_bytes};
ghost use Rattle.wave_watch.specs.Watched.{watch_of, pins_of};
ghost use Rattle.wave_run.specs.Run.{start as start_of, events_of, ran, block_bytes, block_after};

use chip::Chip;
use wave_write::Writer;

// Where a run stands: the chip after the words so far, and the writer of its dump.
#[derive(Clone, Copy)]
pub struct Run {
    pub chip: Chip,
    pub writer: Writer,
}

// Where a run stands after a block, and the place past what was written.
#[derive(Clone, Copy)]
pub struct BlockWritten {
    pub run: Run,
    pub next: usize,
}

const EVENT_ROOM: usize = 151;

// A run from a chip, before the first word.
pub fn start(c: Chip) -> Run
    ensures { result ≡ start_of c }
{
    Run {
        chip: c,
        writer: Writer {
            clocks: 0,
            since: 0,
            watch: wave_watch::watch(c),
        },
    }
}

// What begins the dump of a run from a chip; nothing where there are fewer than 753 places.
pub fn begin(c: Chip, out: &mut [u8]) -> usize
    ensures { Wrote out.old 0 (begin_bytes out.old (pins_of c.core) (watch_of c)) out.new result }
{
    let core = c.core;
    wave_write::begin(out, wave_watch::pins(core), wave_watch::watch(c))
}

// Every word to the chip, and what it adds to the dump. The loop keeps the array of stored registers and the core as two locals, so
// that neither is copied.
fn write_all(run: Run, words: &[u32], out: &mut [u8]) -> BlockWritten
    requires { 151 * length words.now ≤ length out.old }
    ensures { Wrote out.old 0 (text (lines run.writer (events_of run.chip words.now))) out.new result.next × (result.run ≡ ran run words.now) }
{
    let c = run.chip;
    let mut registers = c.registers;
    let mut core = c.core;
    let mut writer = run.writer;
    let mut at = 0;
    for word in words {
        let done = step::advance_word(&mut registers, core, *word);
        core = done.core;
        let watch = wave_watch::watch_core(&registers, core);
        let put = wave_write::write_event(out, at, writer, *word, watch);
        writer = put.writer;
        at = put.next;
    }
    BlockWritten {
        run: Run {
            chip: Chip {
                registers: registers,
                core: core,
            },
            writer: writer,
        },
        next: at,
    }
}

// A block of words to the chip, and what they add to the dump, from the first place on; nothing is done where there are fewer than 151
// places for each word.
pub fn write_block(run: Run, words: &[u32], out: &mut [u8]) -> BlockWritten
    ensures { Wrote out.old 0 (block_bytes out.old run words.now) out.new result.next × (result.run ≡ block_after out.old run words.now) }
{
    if out.len() / EVENT_ROOM < words.len() {
        return BlockWritten { run: run, next: 0 };
    }
    write_all(run, words, out)
}
