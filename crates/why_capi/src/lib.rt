// Why request lines are up, for programs in C or Rust: from a state in a lent area, in twelve numbers that the caller lends.
#![tactic(auto)]

ghost use Rattle.std.specs.Prelude.{◌≡◌};
ghost use Rattle.why_capi.specs.Told.{own_code, sort_code, reason_code, reason_place, numbers_of, why_number_in, told_in};

use bus::OwnAddress;
use chip_well_formed::IllFormed;
use state_area::AreaFault;
use why_last_set::Sort;
use why_reasons::{Reason, Reasons};

fn own_code(own: OwnAddress) -> u64
    ensures { result ≡ own_code own }
{
    match own {
        OwnAddress::A0 => 5,
        OwnAddress::IiAdr => 6,
        OwnAddress::Both => 7,
    }
}

fn sort_code(sort: Sort) -> u64
    ensures { result ≡ sort_code sort }
{
    match sort {
        Sort::VsyncRise => 2,
        Sort::P16Rise => 3,
        Sort::Timer => 4,
        Sort::MatchedAddress(own) => own_code(own),
        Sort::NinthClock => 8,
        Sort::Ddc1Load => 9,
        Sort::SclFall => 10,
    }
}

fn reason_code(reason: Reason) -> u64
    ensures { result ≡ reason_code reason }
{
    match reason {
        Reason::NotRequested => 0,
        Reason::AlreadySet => 1,
        Reason::Event(_, sort) => sort_code(sort),
    }
}

fn reason_place(reason: Reason) -> u64
    ensures { result ≡ reason_place reason }
{
    match reason {
        Reason::NotRequested => 0,
        Reason::AlreadySet => 0,
        Reason::Event(place, _) => place,
    }
}

// Two numbers for each source, in the order V, E, R, A, D, S.
fn numbers_of(reasons: Reasons) -> [u64; 12]
    ensures { result ≡ numbers_of reasons }
{
    let v = reasons.v;
    let e = reasons.e;
    let r = reasons.r;
    let a = reasons.a;
    let d = reasons.d;
    let s = reasons.s;
    [
        reason_code(v),
        reason_place(v),
        reason_code(e),
        reason_place(e),
        reason_code(r),
        reason_place(r),
        reason_code(a),
        reason_place(a),
        reason_code(d),
        reason_place(d),
        reason_code(s),
        reason_place(s),
    ]
}

// Tells why the lines are as they are after the words, from the state in the area, which stays as it is. Or gives 15 or 8 for the area, and
// tells nothing.
#[unsafe(no_mangle)]
pub extern "C" fn nt6861_why(area: &[u8], words: &[u32], told: &mut [u64; 12]) -> u8
    ensures { (result ≡ why_number_in area.now words.now) × (told.new ≡ told_in area.now words.now told.old) }
{
    match state_area::load(area) {
        Ok(c) => match why_reasons::why(c, words) {
            Err(IllFormed) => u8::from(AreaFault::IllFormed),
            Ok(reasons) => {
                *told = numbers_of(reasons);
                0
            },
        },
        Err(fault) => u8::from(fault),
    }
}
