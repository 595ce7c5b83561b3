// The refusals of a request, in their order: 8, 7, 9, 10 (000's `check_path` and `require_sendrecv_v2`).
#![tactic(auto)]

ghost use Rattle.std.specs.Prelude.{◌≡◌};
ghost use Rattle.features.specs.Meaning.{listed, feature_number};
ghost use Rattle.protocol.specs.Refusal.{or_else, flag_refusal, feature_refusal, transfer_refusal, request_refusal};
ghost use Rattle.request_refusal.specs.Meaning.{checked, setting};
ghost use Rattle.request_refusal.specs.declared.Refusal.TheVariants.{Path};
ghost use Rattle.request.specs.Meaning.{meant};

use features::{Feature, Features};
use format_flags::SyncFlags;
use request::Request;
use request_path::{PathRefusal, check_path};

#[derive(Clone, Copy, PartialEq, Eq)]
pub enum Refusal {
    // Answer 8 or 7.
    Path(PathRefusal),
    // Answer 9.
    Flags,
    // Answer 10.
    Missing(Feature),
}

impl From<PathRefusal> for Refusal {
    ghost from_gives = { λ e r. r ≡ Path e };

    fn from(e: PathRefusal) -> Refusal {
        Refusal::Path(e)
    }
}

// 9.
fn check_flags(flags: SyncFlags, pull: bool) -> Result<(), Refusal>
    ensures { checked result ≡ flag_refusal pull flags.0 }
{
    if flags.refused(pull) {
        return Err(Refusal::Flags);
    }
    Ok(())
}

// 10, where the feature is needed and not there.
fn check_feature(features: Features, needed: bool, feature: Feature) -> Result<(), Refusal>
    ensures { checked result ≡ feature_refusal (listed features) needed (feature_number feature) }
{
    if needed && !features.offers(feature) {
        return Err(Refusal::Missing(feature));
    }
    Ok(())
}

// 10 of a transfer of version 2: feature 3, then those of its flags.
#[tactic(auto, unfolding(protocol::specs::Refusal::transfer_refusal))]
fn check_transfer(features: Features, flags: SyncFlags) -> Result<(), Refusal>
    ensures { checked result ≡ transfer_refusal (listed features) flags.0 }
{
    let bits = flags.bits();
    check_feature(features, true, Feature::SendRecvV2)?;
    check_feature(features, bits % 2 == 1, Feature::Brotli)?;
    check_feature(features, bits / 2 % 2 == 1, Feature::Lz4)?;
    check_feature(features, bits / 4 % 2 == 1, Feature::Zstd)?;
    check_feature(features, flags.dry_run(), Feature::DryRunSend)
}

// A transfer of version 2, but for its path: 9, then 10.
fn check_v2(features: Features, flags: SyncFlags, pull: bool) -> Result<(), Refusal>
    ensures { checked result ≡ or_else (flag_refusal pull flags.0) (transfer_refusal (listed features) flags.0) }
{
    check_flags(flags, pull)?;
    check_transfer(features, flags)
}

// What is refused of a request whose path or data is lent beside it.
#[tactic(auto, using(crate::proofs::Laws::or_none), unfolding(protocol::specs::Refusal::request_refusal))]
pub fn check_request(features: Features, q: Request, lent: &[u8]) -> Result<(), Refusal>
    ensures { checked result ≡ request_refusal (setting features) (meant q lent.now) }
{
    if !matches!(q, Request::Data | Request::Done(_) | Request::Quit) {
        check_path(lent)?;
    }
    match q {
        Request::Sta2 => check_feature(features, true, Feature::StatV2),
        Request::Lis2 => check_feature(features, true, Feature::LsV2),
        Request::Rcv2(flags) => check_v2(features, flags, true),
        Request::Snd2(_, flags) => check_v2(features, flags, false),
        _ => Ok(()),
    }
}
