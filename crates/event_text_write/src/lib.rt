// An event word as a line of text, in its one form.
#![tactic(auto)]

ghost use Rattle.std.specs.Prelude.{◌≡◌, length};
ghost use Rattle.line_text.specs.Line.{size, content};
ghost use Rattle.event_text_write.specs.Event.{value_token, kind_tokens, event_tokens, print};

use event_names::{Keyword, Kind};

#[tactic(auto, unfolding(crate::specs::Event::value_token))]
fn value_token(k: Kind, b: u8) -> u64
    ensures { result ≡ value_token k b }
{
    match k {
        Kind::Read => 0,
        Kind::Clock => 0,
        Kind::Write => event_names::byte_token(b),
        Kind::Pin => event_names::digit_token(b),
        Kind::Polarity => event_names::digit_token(b),
    }
}

#[tactic(auto, unfolding(crate::specs::Event::kind_tokens))]
fn kind_tokens(k: Kind, a: u8, b: u8) -> [u64; 3]
    ensures { result ≡ kind_tokens k a b }
{
    [
        event_names::kind_shown(Keyword::Event(k)),
        event_names::shown_of(k, a),
        value_token(k, b),
    ]
}

// The three tokens of a word's line, 0 for none.
#[tactic(auto, unfolding(crate::specs::Event::event_tokens, crate::specs::Event::tokens_by))]
pub fn event_tokens(word: u32) -> [u64; 3]
    ensures { result ≡ event_tokens word }
{
    match event_text_read::line_kind(word) {
        Some(kind) => kind_tokens(kind, (word / 256 % 256) as u8, (word % 256) as u8),
        None => [
            event_names::kind_shown(Keyword::Word),
            event_names::word_token(word),
            0,
        ],
    }
}

// The line of a word at the front of a buffer, and its length; 0 and nothing written where the buffer is too short.
pub fn write_event(word: u32, out: &mut [u8]) -> usize
    ensures { (result ≡ size (print word) out.old) × (out.new ≡ content (print word) out.old) }
{
    let tokens = event_tokens(word);
    line_text::write_line(&tokens, out)
}
