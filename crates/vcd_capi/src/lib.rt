// Value change dumps to event words, exported to C and Rust.
#![tactic(auto)]

ghost use Rattle.std.specs.Prelude.{◌≡◌, [], ◌∷◌, length, get_or};
ghost use Rattle.vcd_capi.specs.Export.{exported, vcd_of, mode_number, mode_of, flag_of, cursor_of, cursor_numbers, continued, more_of};

use vcd_body::{Cursor, Piece};
use vcd_steps::{Mode, State};

// Writes the event words of a dump as far as there are places, and gives 0 or the number of the first refusal. told[0] is how many
// words were written, told[1] the place of the refusal (0 where there is none). 15 where told has not two places; then nothing
// is touched.
#[unsafe(no_mangle)]
pub extern "C" fn nt6861_vcd(file: &[u8], words: &mut [u32], told: &mut [u64]) -> u8
    ensures { exported result words.new told.new ≡ vcd_of file.now words.old told.old }
{
    if told.len() == 2 {
        let piece = vcd::read(file, words);
        tell(told, piece.count, piece.place);
        return piece.number;
    }
    15
}

fn tell(told: &mut [u64], count: usize, place: usize)
    requires { length told.old ≡ 2 }
    ensures { told.new ≡ count ∷ place ∷ [] }
{
    told.copy_from_slice(&[count as u64, place as u64]);
}

// ---- a call that goes on

#[tactic(auto, unfolding(crate::specs::Export::mode_of))]
fn mode_of(n: u64) -> Mode
    ensures { result ≡ mode_of n }
{
    match n {
        0 => Mode::Plain,
        1 => Mode::Code,
        _ => Mode::Comment,
    }
}

#[tactic(auto, unfolding(crate::specs::Export::mode_number))]
fn mode_number(mode: Mode) -> u64
    ensures { result ≡ mode_number mode }
{
    match mode {
        Mode::Plain => 0,
        Mode::Code => 1,
        Mode::Comment => 2,
    }
}

#[tactic(auto, unfolding(crate::specs::Export::flag_of))]
fn flag_of(n: u64) -> bool
    ensures { result ≡ flag_of n }
{
    n != 0
}

#[tactic(auto, unfolding(crate::specs::Export::cursor_of))]
fn cursor_of(cursor: &[u64]) -> Cursor
    requires { length cursor.now ≡ 8 }
    ensures { result ≡ cursor_of cursor.now }
{
    let state = State {
        mark: cursor[2] as usize,
        opened: cursor[3] as usize,
        time: cursor[4],
        clocks: cursor[5],
        mode: mode_of(cursor[6]),
        inside: flag_of(cursor[7]),
    };
    Cursor {
        at: cursor[0] as usize,
        done: cursor[1],
        state,
    }
}

#[tactic(auto, unfolding(crate::specs::Export::cursor_numbers))]
fn keep(cursor: &mut [u64], next: Cursor)
    requires { length cursor.old ≡ 8 }
    ensures { cursor.new ≡ cursor_numbers next }
{
    let state = next.state;
    cursor.copy_from_slice(&[
        next.at as u64,
        next.done,
        state.mark as u64,
        state.opened as u64,
        state.time,
        state.clocks,
        mode_number(state.mode),
        u64::from(state.inside),
    ]);
}

fn tell_more(cursor: &mut [u64], told: &mut [u64], piece: Piece) -> u8
    requires cursor_len { length cursor.old ≡ 8 }
    requires told_len { length told.old ≡ 2 }
    ensures { (result ≡ piece.number) × (cursor.new ≡ cursor_numbers piece.next) × (told.new ≡ piece.count ∷ piece.place ∷ []) }
{
    let next = piece.next;
    keep(cursor, next);
    tell(told, piece.count, piece.place);
    piece.number
}

// The same from a cursor on, which is eight numbers and begins as eight zeros. After 43 it is where the next call goes on; else it
// is as at the beginning. 15 where the cursor has not eight places or told not two; then nothing is touched.
#[unsafe(no_mangle)]
pub extern "C" fn nt6861_vcd_more(
    file: &[u8],
    words: &mut [u32],
    cursor: &mut [u64],
    told: &mut [u64],
) -> u8
    ensures { continued result words.new cursor.new told.new ≡ more_of file.now words.old cursor.old told.old }
{
    if cursor.len() == 8 {
        if told.len() == 2 {
            let from = cursor_of(cursor);
            let piece = vcd::read_more(file, words, from);
            return tell_more(cursor, told, piece);
        }
        return 15;
    }
    15
}
