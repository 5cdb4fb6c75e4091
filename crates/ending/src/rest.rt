// What a sheet has at a place in the bytes that were read of it.
ghost use Rattle.std.specs.Prelude.{◌≡◌};
ghost use Rattle.ending.specs.Rest.{rest_of};

use crate::types::Rest;
use decoder::decode::decode;
use decoder::types::DecodeError;
use model::types::Refusal;

// `ended` tells whether the sheet has no more bytes than these.
#[tactic(auto, unfolding(crate::specs::Rest::rest_by, crate::specs::Rest::rest_of))]
pub fn rest(bytes: &[u8], read: usize, ended: bool) -> Rest
    ensures { result ≡ rest_of bytes.now read ended }
{
    match decode(bytes, read) {
        Ok((command, count)) => Rest::Next(command, count),
        Err(DecodeError::Unknown) => Rest::Ends(Refusal::UnknownCommand),
        Err(DecodeError::Short | DecodeError::End) if !ended => Rest::More,
        Err(DecodeError::Short) => Rest::Ends(Refusal::CutShort),
        Err(DecodeError::End) => Rest::Over,
    }
}
