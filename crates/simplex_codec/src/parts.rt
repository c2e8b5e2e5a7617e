//! The parts that encodings begin with, taken from the front of bytes.

ghost use Rattle.std.specs.Prelude.{◌≡◌, ◌<◌, ◌^◌, ◌++◌, length, MatchOption, IfSome, IfOk, IfErr};
ghost use Rattle.std.specs.Int.{w32, w64, to_be_bytes};
ghost use Rattle.simplex_types.specs.Encoding.{round_bytes, proposal_bytes, IsEncodableRound};
ghost use Rattle.simplex_codec.specs.Refusals.{IsEncodableProposal, IsPayloadRefusal};

use crate::error::DecodeError;
use crate::hooks::DigestCodec;
use simplex_types::types::{Epoch, Proposal, Round, View};

/// A number of eight bytes, and the bytes after it; `None` if there are fewer.
pub(crate) fn take_u64(bytes: &[u8]) -> Option<(u64, &[u8])>
    ensures parts { MatchOption result (length bytes.now < 8) (λ x. bytes.now ≡ to_be_bytes w64 x.0 ++ x.1.now) }
    ensures fits { MatchOption result (length bytes.now < 8) (λ x. x.0 < 2 ^ 64) }
{
    let (front, rest) = bytes.split_first_chunk::<8>()?;
    Some((u64::from_be_bytes(*front), rest))
}

/// A number of four bytes, and the bytes after it; `None` if there are fewer.
pub(crate) fn take_u32(bytes: &[u8]) -> Option<(u32, &[u8])>
    ensures parts { MatchOption result (length bytes.now < 4) (λ x. bytes.now ≡ to_be_bytes w32 x.0 ++ x.1.now) }
    ensures fits { MatchOption result (length bytes.now < 4) (λ x. x.0 < 2 ^ 32) }
{
    let (front, rest) = bytes.split_first_chunk::<4>()?;
    Some((u32::from_be_bytes(*front), rest))
}

/// A round, and the bytes after it; `None` if there are too few.
pub(crate) fn take_round(bytes: &[u8]) -> Option<(Round, &[u8])>
    ensures parts { MatchOption result (length bytes.now < 16) (λ x. bytes.now ≡ round_bytes x.0 ++ x.1.now) }
    ensures fits { IfSome result (λ x. IsEncodableRound x.0) }
{
    let (epoch, rest) = take_u64(bytes)?;
    let (view, rest) = take_u64(rest)?;
    let round = Round {
        epoch: Epoch::new(epoch),
        view: View::new(view),
    };
    Some((round, rest))
}

/// A payload, and the bytes after it. The payload is refused only if there are enough bytes.
pub(crate) fn take_payload<D: DigestCodec>(bytes: &[u8]) -> Result<(D, &[u8]), DecodeError>
    ensures parts { IfOk result (λ x. bytes.now ≡ D.bytes x.0 ++ x.1.now) }
    ensures refused { IfErr result (IsPayloadRefusal D.bytes 0 D.SIZE bytes.now) }
{
    let Some((front, rest)) = bytes.split_at_checked(D::SIZE) else {
        return Err(DecodeError::TooShort);
    };
    match D::read(front) {
        Some(payload) => Ok((payload, rest)),
        None => Err(DecodeError::UnreadablePayload),
    }
}

/// A proposal, and the bytes after it. The payload is refused only if there are enough bytes for the whole proposal.
pub(crate) fn take_proposal<D: DigestCodec>(
    bytes: &[u8],
) -> Result<(Proposal<D>, &[u8]), DecodeError>
    ensures parts { IfOk result (λ x. bytes.now ≡ proposal_bytes D.bytes x.0 ++ x.1.now) }
    ensures fits { IfOk result (λ x. IsEncodableProposal x.0) }
    ensures refused { IfErr result (IsPayloadRefusal D.bytes 24 D.SIZE bytes.now) }
{
    let Some((round, rest)) = take_round(bytes) else {
        return Err(DecodeError::TooShort);
    };
    let Some((parent, rest)) = take_u64(rest) else {
        return Err(DecodeError::TooShort);
    };
    let (payload, rest) = take_payload(rest)?;
    let proposal = Proposal {
        round,
        parent: View::new(parent),
        payload,
    };
    Ok((proposal, rest))
}
