// The check of an EDID base block for programs in C or Rust.
#![tactic(auto)]

ghost use Rattle.std.specs.Prelude.{◌≡◌};
ghost use Rattle.edid_check.specs.Edid.{verdict, number_of};

// The number of a block's verdict: 0 where it is accepted, else that of the first rule which it breaks.
#[unsafe(no_mangle)]
pub extern "C" fn nt6861_edid(block: &[u8]) -> u8
    ensures { result ≡ number_of (verdict block.now) }
{
    edid_check::number(edid_check::check(block))
}
