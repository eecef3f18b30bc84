// Reading an input in full blocks, with the end told from a failure, and what a program says where a call of the system failed.
#![tactic(auto)]

mod failure;

ghost use Rattle.std.specs.Counts.{IsPrefixLen};

pub use failure::{fail, is_closed_pipe, status, tell};
use std::io::{Error, Read};

// The bytes read, and whether a read failed.
#[derive(Clone, Copy)]
pub struct Filled {
    pub count: usize,
    pub failed: bool,
}

// The bytes read, and why a read failed where one did.
#[derive(Clone, Copy)]
pub struct Block {
    pub count: usize,
    pub error: Option<Error>,
}

// Reads until the buffer is full, the input ends or a read fails. A read that a signal interrupts counts as failed.
pub fn fill<R: Read>(from: &mut R, buf: &mut [u8]) -> Filled
    ensures { IsPrefixLen result.count buf.new }
{
    let block = read_block(from, buf);
    Filled {
        count: block.count,
        failed: block.error.is_some(),
    }
}

// The same as `fill`, for a caller that tells why a read failed.
pub fn read_block<R: Read>(from: &mut R, buf: &mut [u8]) -> Block
    ensures { IsPrefixLen result.count buf.new }
{
    // a `while`: the reader, and not the loop, says where the next read begins
    let mut done = 0;
    while done < buf.len() {
        match from.read(&mut buf[done..]) {
            Ok(n) => {
                if n == 0 {
                    return Block {
                        count: done,
                        error: None,
                    };
                }
                done += n;
            }
            Err(e) => {
                return Block {
                    count: done,
                    error: Some(e),
                };
            }
        }
    }
    Block {
        count: done,
        error: None,
    }
}
