// What the program `firmware` is given: its arguments, the image, and the list of events, which is read in blocks. What is wrong is told on
// standard error, and an `Err` is the status that the program then ends with. No contract can say what is read.
#![tactic(auto)]

use firmware_event_lines::{Event, Malformed, Reader};
use firmware_event_list::{Checked, Found, MalformedLine};
use std::env::FillError;
use std::fs::File;
use std::io::{Error, ErrorKind, Print, Read, Seek};
use std::process::ExitCode;
use std::rt::{Env, Files};
use std::{io, str};

// A place in a list: the line that is being read, the byte of the block to be read next, how many bytes the block has, whether it is the last
// one, and whether the read of it failed.
#[derive(Clone, Copy)]
pub struct Place {
    pub reader: Reader,
    pub at: usize,
    pub count: usize,
    pub last: bool,
    pub failed: bool,
}

// What is found in a list, nothing or an event, the place behind it, and whether it was the end.
#[derive(Clone, Copy)]
pub struct Finding {
    pub event: Option<Event>,
    pub place: Place,
    pub ended: bool,
}

// Why a list cannot be used: a line, or a read that failed.
#[derive(Clone, Copy)]
enum ListError {
    Line(MalformedLine),
    Read(Error),
}

impl From<MalformedLine> for ListError {
    fn from(e: MalformedLine) -> Self {
        ListError::Line(e)
    }
}

// No argument is longer.
const MOST: usize = 131072;

// Argument `at`; where there is none, no bytes.
fn argument<'a, E: Env>(rt: &E, at: usize, room: &'a mut [u8; MOST]) -> &'a [u8] {
    match rt.arg(at, room) {
        Ok(n) => room.get(..n).unwrap_or(&[]),
        Err(_) => &[],
    }
}

pub fn is_given<E: Env>(rt: &E, at: usize) -> bool {
    !matches!(rt.arg(at, &mut []), Err(FillError::NotPresent))
}

// A name, which need not be text, and what is wrong with it.
fn tell<P: Print>(err: &P, name: &[u8], why: &[u8]) -> ExitCode {
    match err.write_all(name) {
        Ok(()) => input::tell(err, why),
        Err(e) => input::status(Err(e)),
    }
}

// ---- numbers and options

// The first argument is -t.
pub fn is_trace_asked<E: Env>(rt: &E) -> bool {
    let mut room = [0u8; MOST];
    vcd_text::same(argument(rt, 1, &mut room), b"-t")
}

// COUNT, where the text is a decimal number below 2^32.
fn count_of(text: &[u8]) -> Option<u32> {
    let count = vcd_text::decimal(text).ok()?;
    u32::try_from(count).ok()
}

// COUNT of argument `at`; where it is not one, that is told.
pub fn take_count<E: Env, P: Print>(rt: &E, err: &P, at: usize) -> Result<u32, ExitCode> {
    let mut room = [0u8; MOST];
    let text = argument(rt, at, &mut room);
    count_of(text).ok_or_else(|| tell(err, text, b": not a decimal number up to 4294967295\n"))
}

// ---- the image

// Opens a file; where that fails it is told. Its name is text for the library, so one that is no UTF-8 cannot be opened.
fn open<R: Files, P: Print>(rt: &R, err: &P, name: &[u8]) -> Result<R::File, ExitCode> {
    let opened = match str::from_utf8(name) {
        Ok(path) => File::open(rt, path),
        Err(_) => Err(Error::from(ErrorKind::InvalidFilename)),
    };
    opened.map_err(|e| input::fail(err, name, &e))
}

// How many bytes stand behind an image.
fn count_rest<R: Read>(from: &mut R) -> io::Result<u64> {
    let mut count = 0u64;
    let mut block = [0u8; 65536];
    for _ in 0..u64::MAX {
        let read = input::read_block(from, &mut block);
        if let Some(e) = read.error {
            return Err(e);
        }
        count = count.wrapping_add(read.count as u64);
        if read.count < block.len() {
            break;
        }
    }
    Ok(count)
}

fn tell_length<P: Print>(err: &P, name: &[u8], n: u64) -> io::Result<()> {
    err.write_all(name)?;
    println!(err; ": {n} bytes, not 24576")
}

// Reads an image, which has 24,576 bytes; what is wrong is told.
fn read_image<R: Read, P: Print>(
    from: &mut R,
    err: &P,
    name: &[u8],
    rom: &mut [u8; 24576],
) -> Result<(), ExitCode> {
    let read = input::read_block(from, rom);
    let rest = count_rest(from).map_err(|e| input::fail(err, name, &e))?;
    if let Some(e) = read.error {
        return Err(input::fail(err, name, &e));
    }
    let n = rest.wrapping_add(read.count as u64);
    if n == rom.len() as u64 {
        return Ok(());
    }
    Err(input::status(tell_length(err, name, n)))
}

// The image that argument `at` names.
pub fn take_image<R: Env + Files, P: Print>(
    rt: &R,
    err: &P,
    at: usize,
    rom: &mut [u8; 24576],
) -> Result<(), ExitCode> {
    let mut room = [0u8; MOST];
    let name = argument(rt, at, &mut room);
    let mut file = open(rt, err, name)?;
    read_image(&mut file, err, name, rom)
}

// ---- the list, checked before anything runs

// Every line; the end of the file ends its last line. Nothing says that a file ends, and no file uses up the turns of the loop.
fn check_lines<R: Read>(from: &mut R) -> Result<(), ListError> {
    let mut checked = firmware_event_list::opened();
    let mut block = [0u8; 65536];
    for _ in 0..u64::MAX {
        let read = input::read_block(from, &mut block);
        let n = read.count;
        let lines = firmware_event_list::check(Ok(checked), &block[..n]);
        if let Some(e) = read.error {
            return Err(ListError::Read(e));
        }
        checked = lines?;
        if n < block.len() {
            break;
        }
    }
    end(checked)
}

// The last line, which the end of the file ends.
fn end(checked: Checked) -> Result<(), ListError> {
    if firmware_event_list::is_well_formed(Ok(checked)) {
        return Ok(());
    }
    Err(ListError::Line(MalformedLine {
        reader: checked.reader,
        number: checked.line,
    }))
}

// To the beginning of a file; where that fails it is told.
fn rewind<F: Seek, P: Print>(file: &mut F, err: &P, name: &[u8]) -> Result<(), ExitCode> {
    file.rewind().map_err(|e| input::fail(err, name, &e))
}

fn tell_line<P: Print>(err: &P, name: &[u8], line: u64) -> io::Result<()> {
    err.write_all(name)?;
    println!(err; ":{line}: not NUMBER WORD")
}

// Every line of a list is well formed, else what is wrong is told. It is read from its beginning, and left there.
fn check_list<F: Read + Seek, P: Print>(
    file: &mut F,
    err: &P,
    name: &[u8],
) -> Result<(), ExitCode> {
    rewind(file, err, name)?;
    match check_lines(file) {
        Ok(()) => rewind(file, err, name),
        Err(ListError::Read(e)) => Err(input::fail(err, name, &e)),
        Err(ListError::Line(line)) => Err(input::status(tell_line(err, name, line.number))),
    }
}

// Opens the list that argument `at` names, where every line is well formed.
pub fn open_list<R: Env + Files, P: Print>(
    rt: &R,
    err: &P,
    at: usize,
) -> Result<R::File, ExitCode> {
    let mut room = [0u8; MOST];
    let name = argument(rt, at, &mut room);
    let mut file = open(rt, err, name)?;
    check_list(&mut file, err, name)?;
    Ok(file)
}

// ---- the list, event by event

// A list that argument `at` names is not what was checked.
pub fn tell_changed<E: Env, P: Print>(rt: &E, err: &P, at: usize) -> ExitCode {
    let mut room = [0u8; MOST];
    let name = argument(rt, at, &mut room);
    tell(err, name, b": not the same when it was read again\n")
}

// The place to read at: where a block is read to its end, the start of the next one.
fn refilled<R: Read>(from: &mut R, block: &mut [u8; 65536], place: Place) -> Place {
    if place.at < place.count || place.last || place.failed {
        return place;
    }
    let filled = input::fill(from, block);
    Place {
        reader: place.reader,
        at: 0,
        count: filled.count,
        last: filled.count < block.len(),
        failed: filled.failed,
    }
}

// The next event among the first n bytes of a block, or in all of it.
fn next_event(reader: Reader, block: &[u8], n: usize, at: usize) -> Found {
    if n < block.len() {
        return firmware_event_list::next_event(reader, &block[..n], at);
    }
    firmware_event_list::next_event(reader, block, at)
}

// Reads on up to the next event or the end of a block. Behind a failed read stands a malformed line; the end of the file ends its last line.
pub fn find<R: Read>(
    from: &mut R,
    block: &mut [u8; 65536],
    start: Place,
) -> Result<Finding, Malformed> {
    let place = refilled(from, block, start);
    if place.at < place.count {
        let found = next_event(place.reader, block, place.count, place.at);
        return Ok(Finding {
            event: found.meaning?,
            place: Place {
                reader: found.reader,
                at: found.at,
                ..place
            },
            ended: false,
        });
    }
    if place.failed {
        return Err(Malformed);
    }
    let found = firmware_event_list::next_event(place.reader, b"\n", 0);
    Ok(Finding {
        event: found.meaning?,
        place,
        ended: true,
    })
}
