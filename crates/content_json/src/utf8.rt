//! Texts byte by byte, up to the first that is wrong.

ghost use Rattle.std.specs.Prelude.{◌≡◌};
ghost use Rattle.content_json.specs.Inner.Strings.{after_byte, after_first, tail, wrong_at};

use crate::decode_error::Fault;
use crate::stop::{Refusal, stop_at};

/// The bytes that a character lacks: how many, and the range of the next.
#[derive(Clone, Copy, Drop)]
pub(crate) struct Lack {
    pub(crate) count: u8,
    pub(crate) least: u8,
    pub(crate) most: u8,
}

/// This many bytes, each in the range of all but a character's first two.
fn tail(count: u8) -> Lack
    ensures { result ≡ tail count }
{
    Lack {
        count,
        least: 0x80,
        most: 0xbf,
    }
}

/// What a character lacks after its first byte, where a character begins so.
fn after_first(byte: u8) -> Option<Lack>
    ensures { result ≡ after_first byte }
{
    match byte {
        0x00..=0x7f => Some(tail(0)),
        0xc2..=0xdf => Some(tail(1)),
        0xe0 => Some(Lack {
            least: 0xa0,
            ..tail(2)
        }),
        0xed => Some(Lack {
            most: 0x9f,
            ..tail(2)
        }),
        0xe1..=0xef => Some(tail(2)),
        0xf0 => Some(Lack {
            least: 0x90,
            ..tail(3)
        }),
        0xf1..=0xf3 => Some(tail(3)),
        0xf4 => Some(Lack {
            most: 0x8f,
            ..tail(3)
        }),
        _ => None,
    }
}

/// What is lacking after one more byte, where it can be there.
fn after_byte(lack: Lack, byte: u8) -> Option<Lack>
    ensures { result ≡ after_byte lack byte }
{
    if lack.count == 0 {
        after_first(byte)
    } else if lack.least <= byte && byte <= lack.most {
        Some(tail(lack.count - 1))
    } else {
        None
    }
}

/// Where bytes stop being a text: at the first with which no text begins, or at their end.
#[tactic(auto, unfolding(crate::specs::Inner::Strings::wrong_at))]
pub(crate) fn stop_in_text(bytes: &[u8]) -> Refusal
    ensures { result ≡ wrong_at (tail 0) bytes.now }
{
    let mut lack = tail(0);
    let mut rest = bytes;
    while let [byte, behind @ ..] = rest {
        match after_byte(lack, *byte) {
            Some(next) => lack = next,
            None => return stop_at(Fault::NotUtf8, rest),
        }
        rest = behind;
    }
    stop_at(Fault::NotUtf8, rest)
}
