// Event words written into places that the caller lends, up to the first that finds none.
#![tactic(auto)]

ghost use Rattle.std.specs.Prelude.{Bool, ◌≡◌, ◌-◌, ◌≤◌, replicate, drop};
ghost use Rattle.vcd_output.specs.Room.{wrote, put, clock_word, pin_word, pin_words};

pub const CLOCK: u32 = 0x04000000;

// The word of pin 0's change to 0.
const PIN: u32 = 0x03000000;

// How many words stand in the places; whether one found no place; and then how many words of its token are written.
#[derive(Clone, Copy)]
pub struct Put {
    pub count: usize,
    pub done: u64,
    pub full: bool,
}

// The 8 µs clocks that a time makes due, but for those that are done.
pub fn clocks(out: &mut [u32], from: usize, due: u64, done: u64) -> Put
    ensures { wrote out.new result ≡ put (replicate (due - done) clock_word) out.old from done }
{
    let mut count = from;
    for given in done..due {
        if count < out.len() {
            out[count] = CLOCK;
            count += 1;
        } else {
            return Put {
                count,
                done: given,
                full: true,
            };
        }
    }
    Put {
        count,
        done: 0,
        full: false,
    }
}

// The word of a pin's change.
fn pin_word(high: bool, pin: u32) -> u32
    requires { pin ≤ 255 }
    ensures { result ≡ pin_word high pin }
{
    PIN + u32::from(high) + pin * 256
}

// A list of pins without the first ones.
fn passed(list: u32, done: u64) -> u32
    requires { done ≤ 4 }
    ensures { (high : Bool) → pin_words (4 - done) result high ≡ drop done (pin_words 4 list high) }
{
    let mut rest = list;
    for i in 0..done {
        if rest % 256 == 0 {
            return 0;
        }
        rest /= 256;
    }
    rest
}

// A word for each pin of a list of at most four, but for those that are done.
pub fn pins(out: &mut [u32], from: usize, list: u32, high: bool, done: u64) -> Put
    ensures { wrote out.new result ≡ put (drop done (pin_words 4 list high)) out.old from done }
{
    if 4 < done {
        return Put {
            count: from,
            done: 0,
            full: false,
        };
    }
    rest_of_pins(out, from, passed(list, done), high, done)
}

fn rest_of_pins(out: &mut [u32], from: usize, list: u32, high: bool, done: u64) -> Put
    requires { done ≤ 4 }
    ensures { wrote out.new result ≡ put (pin_words (4 - done) list high) out.old from done }
{
    let mut count = from;
    let mut rest = list;
    for given in done..4 {
        let pin = rest % 256;
        if pin == 0 {
            return Put {
                count,
                done: 0,
                full: false,
            };
        }
        if count < out.len() {
            out[count] = pin_word(high, pin);
            count += 1;
            rest /= 256;
        } else {
            return Put {
                count,
                done: given,
                full: true,
            };
        }
    }
    Put {
        count,
        done: 0,
        full: false,
    }
}
