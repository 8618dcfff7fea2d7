//! Numbers digit by digit, up to the first that leads to none.

ghost use Rattle.std.specs.Prelude.{◌≡◌, ◌≤◌, ◌<◌, ◌^◌, IfOk};
ghost use Rattle.content_cbor.specs.Inner.Steps.{Finds};
ghost use Rattle.content_cbor.specs.Inner.Numbers.{between, digits_at, leading};

use crate::decode_error::Fault;
use crate::stop::{Refusal, stop_at};

/// From which to which number, and what is wrong with others.
#[derive(Clone, Copy, Drop)]
pub(crate) struct Range {
    pub(crate) least: u128,
    pub(crate) most: u128,
    pub(crate) fault: Fault,
}

/// The number without this many of its last digits to the base 256.
pub(crate) fn leading(due: u64, number: u128) -> u128
    ensures { result ≡ leading due number }
{
    if due < 16 {
        number >> (8 * due as u32)
    } else {
        0
    }
}

/// The number with this many digits more.
pub(crate) fn read_digits(
    range: Range,
    due: u64,
    number: u128,
    bytes: &[u8],
) -> Result<(u128, &[u8]), Refusal>
    requires begins { number ≤ leading due range.most }
    requires fits { range.most < 2 ^ 128 }
    ensures value { Finds (λ x. (x.0, x.1.now)) result
        (digits_at (between range.least range.most range.«fault») due number bytes.now) }
    ensures room { IfOk result (λ x. x.0 ≤ range.most) }
{
    let mut due = due;
    let mut number = number;
    let mut rest = bytes;
    while due > 0 {
        let [digit, behind @ ..] = rest else {
            return Err(stop_at(Fault::Ended, rest));
        };
        due -= 1;
        let longer = number * 256 + u128::from(*digit);
        if longer < leading(due, range.least) || leading(due, range.most) < longer {
            return Err(stop_at(range.fault, rest));
        }
        number = longer;
        rest = behind;
    }
    Ok((number, rest))
}
