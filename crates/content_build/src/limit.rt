//! A limit on how deep trees nest.

ghost use Rattle.std.specs.Prelude.{◌≡◌, Some};
ghost use Rattle.content_build.specs.Inner.Tokens.{token_view};
ghost use Rattle.content_build.specs.Limit as limits;

use crate::token::Token;

/// Whether the tree that the call announces, if it announces one, keeps the limit where this many
/// trees are open.
pub(crate) fn fits(limit: usize, count: usize, call: &Token<'_>) -> bool
    ensures { result ≡ limits.fits (Some limit) count (token_view call.now) }
{
    match call {
        // It opens a tree and announces one inside it.
        Token::Wrap(_) => limit > 0 && count < limit - 1,
        Token::Item(_) => count < limit,
        Token::Leaf(_) => true,
        Token::Series(_) => true,
        Token::Map => true,
        Token::Record(_) => true,
        Token::End => true,
    }
}
