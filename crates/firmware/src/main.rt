// Runs a firmware image from power up: firmware [-t] ROM COUNT [EVENTS]. It prints the answers of the events given and the registers at the
// end, with -t a line for each event, interrupt and instruction (images/README.md). What cannot be run is told on standard error, and
// nothing runs. A list is read twice, so that it may have any length: first every line is checked, then the events are given as they are read.
#![tactic(auto)]

ghost use Rattle.std.specs.Prelude.{◌<◌};

use firmware_input::Place;
use firmware_print::{Asked, Output};
use firmware_trace::Run;
use std::io::{Print, Read};
use std::process::ExitCode;
use std::rt::{Env, Files};

// The instructions past the last event, and the last line.
fn finish<P: Print, Q: Print>(
    out: &mut Output<P>,
    err: &Q,
    run: Run,
    ram: &mut [u8; 256],
    rom: &[u8],
    asked: Asked,
) -> Result<(), ExitCode> {
    firmware_print::take(out, run, ram, rom, asked, None);
    match out.error {
        Some(e) => Err(input::fail(err, b"firmware: standard output", &e)),
        None => Ok(()),
    }
}

// A run with the events of an open list, until no instruction follows; whether they are still well formed. Nothing says that a list ends, and
// no run uses up the turns of the loop.
fn run_events<P: Print, Q: Print, R: Read>(
    out: &mut Output<P>,
    err: &Q,
    list: &mut R,
    rom: &[u8],
    asked: Asked,
) -> Result<bool, ExitCode> {
    let mut ram = [0u8; 256];
    let mut block = [0u8; 65536];
    let mut run = firmware_trace::power_up(rom);
    let mut place = Place {
        reader: firmware_event_lines::line_start(),
        at: 0,
        count: 0,
        last: false,
        failed: false,
    };
    for _ in 0..u64::MAX {
        let Ok(found) = firmware_input::find(list, &mut block, place) else {
            return Ok(false);
        };
        place = found.place;
        if let Some(event) = found.event {
            run = firmware_print::take(out, run, &mut ram, rom, asked, Some(event));
        }
        if found.ended || !firmware_trace::goes_on(run.number, run.printed, run.next, asked.count) {
            break;
        }
    }
    finish(out, err, run, &mut ram, rom, asked)?;
    Ok(true)
}

// A run with the list that argument `at` names.
fn run_listed<P: Print, Q: Print, R: Env + Files>(
    out: &mut Output<P>,
    err: &Q,
    rt: &R,
    at: usize,
    rom: &[u8; 24576],
    asked: Asked,
) -> Result<(), ExitCode> {
    let mut list = firmware_input::open_list(rt, err, at)?;
    if run_events(out, err, &mut list, rom, asked)? {
        Ok(())
    } else {
        Err(firmware_input::tell_changed(rt, err, at))
    }
}

fn run_alone<P: Print, Q: Print>(
    out: &mut Output<P>,
    err: &Q,
    rom: &[u8; 24576],
    asked: Asked,
) -> Result<(), ExitCode> {
    let mut ram = [0u8; 256];
    finish(
        out,
        err,
        firmware_trace::power_up(rom),
        &mut ram,
        rom,
        asked,
    )
}

// ROM is argument `first`, COUNT the next, and EVENTS the one behind it.
fn start<P: Print, Q: Print, R: Env + Files>(
    out: &mut Output<P>,
    err: &Q,
    rt: &R,
    first: usize,
    traced: bool,
) -> Result<(), ExitCode>
    requires { first < 3 }
{
    if !firmware_input::is_given(rt, first + 1) | firmware_input::is_given(rt, first + 3) {
        return Err(input::tell(err, b"usage: firmware [-t] ROM COUNT [EVENTS]\n"));
    }
    let mut rom = [0u8; 24576];
    firmware_input::take_image(rt, err, first, &mut rom)?;
    let asked = Asked {
        count: firmware_input::take_count(rt, err, first + 1)?,
        traced,
    };
    if firmware_input::is_given(rt, first + 2) {
        run_listed(out, err, rt, first + 2, &rom, asked)
    } else {
        run_alone(out, err, &rom, asked)
    }
}

fn main(rt: HostRuntime) -> ExitCode {
    let mut out = Output {
        to: rt.stdout(),
        error: None,
    };
    let err = rt.stderr();
    let traced = firmware_input::is_trace_asked(&rt);
    match start(&mut out, &err, &rt, if traced { 2 } else { 1 }, traced) {
        Ok(()) => ExitCode::SUCCESS,
        Err(status) => status,
    }
}
