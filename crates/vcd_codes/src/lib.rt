// The declared variables, their codes kept as places in the file, and what a code stands for.
#![tactic(auto)]

ghost use Rattle.std.specs.Prelude.{◌≡◌, ◌+◌, ◌-◌, ◌*◌, ◌<◌, get_or};
ghost use Rattle.vcd_text.specs.Token.{same_bytes};
ghost use Rattle.vcd_codes.specs.Codes.{code_at, variables, find, meant, joined_to, found_after, hash_of};

// No variable has the code.
pub const UNDECLARED: u64 = 4294967296;

// Where the code of an entry begins; 0 for an entry that the table has no place for. Not `get`: k * 2 may be above 64 bits there.
fn code_from(places: &[usize], k: usize) -> usize
    ensures { result ≡ get_or places.now (k * 2) 0 }
{
    if k < places.len() - places.len() / 2 {
        places[k * 2]
    } else {
        0
    }
}

// Where it ends.
fn code_to(places: &[usize], k: usize) -> usize
    ensures { result ≡ get_or places.now (k * 2 + 1) 0 }
{
    if k < places.len() / 2 {
        places[k * 2 + 1]
    } else {
        0
    }
}

fn pin_at(pins: &[u8], k: usize) -> u8
    ensures { result ≡ get_or pins.now k 0 }
{
    pins.get(k).copied().unwrap_or(0)
}

// The code of an entry, as far as the file has it.
fn code_of<'a>(text: &'a [u8], places: &[usize], k: usize) -> &'a [u8]
    ensures { result.now ≡ code_at text.now places.now k }
{
    let to = code_to(places, k).min(text.len());
    let from = code_from(places, k).min(to);
    &text[from..to]
}

// A code is that of an entry.
pub fn is_code(text: &[u8], places: &[usize], k: usize, code: &[u8]) -> bool
    ensures { result ≡ same_bytes (code_at text.now places.now k) code.now }
{
    vcd_text::same(code_of(text, places, k), code)
}

// A pin before the pins of a list.
#[tactic(auto, unfolding(crate::specs::Codes::joined_to))]
fn joined(list: u64, pin: u64) -> u64
    requires { pin < 256 }
    ensures { result ≡ joined_to list pin }
{
    if list < 4294967296 {
        if pin == 0 {
            return list;
        }
        return list % 16777216 * 256 + pin;
    }
    pin
}

// What a code stands for, one entry more looked at.
fn with_entry(text: &[u8], places: &[usize], pins: &[u8], k: usize, code: &[u8], list: u64) -> u64
    ensures { meant result ≡ found_after text.now places.now pins.now k code.now (meant list) }
{
    if is_code(text, places, k, code) {
        return joined(list, u64::from(pin_at(pins, k)));
    }
    list
}

// What a code stands for, from the last entry to the first.
pub fn list_of(text: &[u8], places: &[usize], pins: &[u8], entries: usize, code: &[u8]) -> u64
    ensures { meant result ≡ find (variables text.now places.now pins.now 0 entries) code.now }
{
    let mut list = UNDECLARED;
    for k in (0..entries).rev() {
        list = with_entry(text, places, pins, k, code, list);
    }
    list
}

// What the code of an entry stands for.
pub fn list_at(text: &[u8], places: &[usize], pins: &[u8], entries: usize, k: usize) -> u64
    ensures { meant result ≡ find (variables text.now places.now pins.now 0 entries) (code_at text.now places.now k) }
{
    list_of(text, places, pins, entries, code_of(text, places, k))
}

// The hash of a code, by which its entry is looked up. Few of the declared codes share one.
#[tactic(auto, unfolding(crate::specs::Codes::hash_of))]
pub fn hash_of(code: &[u8]) -> usize
    ensures { (result ≡ hash_of code.now) × (result < 256) }
{
    if code.is_empty() {
        return 0;
    }
    let last = code.len() - 1;
    let sum = usize::from(code[0]) * 5 + usize::from(code[last / 2]) * 3 + usize::from(code[last]);
    sum % 256
}

// The hash of the code of an entry.
pub fn hash_at(text: &[u8], places: &[usize], k: usize) -> usize
    ensures { (result ≡ hash_of (code_at text.now places.now k)) × (result < 256) }
{
    hash_of(code_of(text, places, k))
}
