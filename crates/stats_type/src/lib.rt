// The types of statistics (RFC 7854, section 4.8; 14 to 17 RFC 8671, section 6.2; from 18 on the registry of IANA).
#![tactic(auto)]

ghost use Rattle.std.specs.Prelude.{◌≡◌, ◌≤◌};
ghost use Rattle.stats_type.specs.Shown.{type_of, kind_of};

#[derive(Clone, Copy)]
pub enum StatType {
    PrefixesRejectedByInboundPolicy,
    DuplicatePrefixAdvertisements,
    DuplicateWithdrawnPrefixes,
    UpdatesInvalidatedDueToClusterListLoop,
    UpdatesInvalidatedDueToASPathLoop,
    UpdatesInvalidatedDueToOriginatorId,
    UpdatesInvalidatedDueToASConfedLoop,
    RoutesInAdjRibsIn,
    RoutesInLocRib,
    RoutesInPerAfiSafiAdjRibIn,
    RoutesInPerAfiSafiLocRib,
    UpdatesSubjectedToTreatAsWithdraw,
    PrefixesSubjectedToTreatAsWithdraw,
    DuplicateUpdateMessagesReceived,
    RoutesInPrePolicyAdjRibOut,
    RoutesInPostPolicyAdjRibOut,
    RoutesInPerAfiSafiPrePolicyAdjRibOut,
    RoutesInPerAfiSafiPostPolicyAdjRibOut,
    RoutesInPrePolicyAdjRibIn,
    RoutesInPerAfiSafiPrePolicyAdjRibIn,
    RoutesInPostPolicyAdjRibIn,
    RoutesInPerAfiSafiPostPolicyAdjRibIn,
    RoutesInPerAfiSafiPrePolicyAdjRibInRejectedByPolicy,
    RoutesInPerAfiSafiPostPolicyAdjRibInAcceptedByPolicy,
    RoutesInPerAfiSafiPostPolicyAdjRibInOrLocRibSuppressed,
    RoutesInPerAfiSafiPostPolicyAdjRibInOrLocRibStaleByGracefulRestart,
    RoutesInPerAfiSafiPostPolicyAdjRibInOrLocRibStaleByLongLivedGracefulRestart,
    RoutesInPostPolicyAdjRibInLeftBeforeThreshold,
    RoutesInPerAfiSafiPostPolicyAdjRibInLeftBeforeThreshold,
    RoutesInPostPolicyAdjRibInOrLocRibLeftBeforeLicenseThreshold,
    RoutesInPerAfiSafiPostPolicyAdjRibInOrLocRibLeftBeforeLicenseThreshold,
    RoutesInPrePolicyAdjRibInRejectedDueToMaxAsPathLength,
    RoutesInPerAfiSafiPrePolicyAdjRibInRejectedDueToMaxAsPathLength,
    RoutesInPerAfiSafiPostPolicyAdjRibInInvalidatedByRoa,
    RoutesInPerAfiSafiPostPolicyAdjRibInValidatedByRoa,
    RoutesInPerAfiSafiPostPolicyAdjRibInRpkiStateNotFound,
    RoutesInPerAfiSafiPrePolicyAdjRibOutRejectedByPolicy,
    RoutesInPrePolicyAdjRibOutFilteredDueToMaxAsPathLength,
    RoutesInPerAfiSafiPrePolicyAdjRibOutFilteredDueToMaxAsPathLength,
    RoutesInPerAfiSafiPostPolicyAdjRibOutInvalidatedByRoa,
    RoutesInPerAfiSafiPostPolicyAdjRibOutValidatedByRoa,
    RoutesInPerAfiSafiPostPolicyAdjRibOutRpkiStateNotFound,
    Other(u16),
}

// The name of a type, by its number.
#[tactic(auto, unfolding(crate::specs::Shown::type_of, crate::specs::Shown::names))]
pub fn type_of(kind: u16) -> StatType
    ensures { result ≡ type_of kind }
{
    // 24 and 25, the gap between the two ranges, have no name.
    match kind {
        0..=23 => type_below_gap(kind),
        26..=43 => type_above_gap(kind),
        _ => StatType::Other(kind),
    }
}

// The names up to the gap: what is left for the last arm is 23.
#[tactic(auto, unfolding(crate::specs::Shown::type_of, crate::specs::Shown::names))]
fn type_below_gap(kind: u16) -> StatType
    requires { kind ≤ 23 }
    ensures { result ≡ type_of kind }
{
    match kind {
        0 => StatType::PrefixesRejectedByInboundPolicy,
        1 => StatType::DuplicatePrefixAdvertisements,
        2 => StatType::DuplicateWithdrawnPrefixes,
        3 => StatType::UpdatesInvalidatedDueToClusterListLoop,
        4 => StatType::UpdatesInvalidatedDueToASPathLoop,
        5 => StatType::UpdatesInvalidatedDueToOriginatorId,
        6 => StatType::UpdatesInvalidatedDueToASConfedLoop,
        7 => StatType::RoutesInAdjRibsIn,
        8 => StatType::RoutesInLocRib,
        9 => StatType::RoutesInPerAfiSafiAdjRibIn,
        10 => StatType::RoutesInPerAfiSafiLocRib,
        11 => StatType::UpdatesSubjectedToTreatAsWithdraw,
        12 => StatType::PrefixesSubjectedToTreatAsWithdraw,
        13 => StatType::DuplicateUpdateMessagesReceived,
        14 => StatType::RoutesInPrePolicyAdjRibOut,
        15 => StatType::RoutesInPostPolicyAdjRibOut,
        16 => StatType::RoutesInPerAfiSafiPrePolicyAdjRibOut,
        17 => StatType::RoutesInPerAfiSafiPostPolicyAdjRibOut,
        18 => StatType::RoutesInPrePolicyAdjRibIn,
        19 => StatType::RoutesInPerAfiSafiPrePolicyAdjRibIn,
        20 => StatType::RoutesInPostPolicyAdjRibIn,
        21 => StatType::RoutesInPerAfiSafiPostPolicyAdjRibIn,
        22 => StatType::RoutesInPerAfiSafiPrePolicyAdjRibInRejectedByPolicy,
        _ => StatType::RoutesInPerAfiSafiPostPolicyAdjRibInAcceptedByPolicy,
    }
}

// The names from the gap on: what is left for the last arm is 43.
#[tactic(auto, unfolding(crate::specs::Shown::type_of, crate::specs::Shown::names))]
fn type_above_gap(kind: u16) -> StatType
    requires le_kind { 26 ≤ kind }
    requires kind_bound { kind ≤ 43 }
    ensures { result ≡ type_of kind }
{
    match kind {
        26 => StatType::RoutesInPerAfiSafiPostPolicyAdjRibInOrLocRibSuppressed,
        27 => StatType::RoutesInPerAfiSafiPostPolicyAdjRibInOrLocRibStaleByGracefulRestart,
        28 => StatType::RoutesInPerAfiSafiPostPolicyAdjRibInOrLocRibStaleByLongLivedGracefulRestart,
        29 => StatType::RoutesInPostPolicyAdjRibInLeftBeforeThreshold,
        30 => StatType::RoutesInPerAfiSafiPostPolicyAdjRibInLeftBeforeThreshold,
        31 => StatType::RoutesInPostPolicyAdjRibInOrLocRibLeftBeforeLicenseThreshold,
        32 => StatType::RoutesInPerAfiSafiPostPolicyAdjRibInOrLocRibLeftBeforeLicenseThreshold,
        33 => StatType::RoutesInPrePolicyAdjRibInRejectedDueToMaxAsPathLength,
        34 => StatType::RoutesInPerAfiSafiPrePolicyAdjRibInRejectedDueToMaxAsPathLength,
        35 => StatType::RoutesInPerAfiSafiPostPolicyAdjRibInInvalidatedByRoa,
        36 => StatType::RoutesInPerAfiSafiPostPolicyAdjRibInValidatedByRoa,
        37 => StatType::RoutesInPerAfiSafiPostPolicyAdjRibInRpkiStateNotFound,
        38 => StatType::RoutesInPerAfiSafiPrePolicyAdjRibOutRejectedByPolicy,
        39 => StatType::RoutesInPrePolicyAdjRibOutFilteredDueToMaxAsPathLength,
        40 => StatType::RoutesInPerAfiSafiPrePolicyAdjRibOutFilteredDueToMaxAsPathLength,
        41 => StatType::RoutesInPerAfiSafiPostPolicyAdjRibOutInvalidatedByRoa,
        42 => StatType::RoutesInPerAfiSafiPostPolicyAdjRibOutValidatedByRoa,
        _ => StatType::RoutesInPerAfiSafiPostPolicyAdjRibOutRpkiStateNotFound,
    }
}

// The number that stands for a type on the wire.
#[tactic(auto, unfolding(crate::specs::Shown::kind_of))]
pub fn kind_of(stat_type: StatType) -> u16
    ensures { result ≡ kind_of stat_type }
{
    match stat_type {
        StatType::PrefixesRejectedByInboundPolicy => 0,
        StatType::DuplicatePrefixAdvertisements => 1,
        StatType::DuplicateWithdrawnPrefixes => 2,
        StatType::UpdatesInvalidatedDueToClusterListLoop => 3,
        StatType::UpdatesInvalidatedDueToASPathLoop => 4,
        StatType::UpdatesInvalidatedDueToOriginatorId => 5,
        StatType::UpdatesInvalidatedDueToASConfedLoop => 6,
        StatType::RoutesInAdjRibsIn => 7,
        StatType::RoutesInLocRib => 8,
        StatType::RoutesInPerAfiSafiAdjRibIn => 9,
        StatType::RoutesInPerAfiSafiLocRib => 10,
        StatType::UpdatesSubjectedToTreatAsWithdraw => 11,
        StatType::PrefixesSubjectedToTreatAsWithdraw => 12,
        StatType::DuplicateUpdateMessagesReceived => 13,
        StatType::RoutesInPrePolicyAdjRibOut => 14,
        StatType::RoutesInPostPolicyAdjRibOut => 15,
        StatType::RoutesInPerAfiSafiPrePolicyAdjRibOut => 16,
        StatType::RoutesInPerAfiSafiPostPolicyAdjRibOut => 17,
        StatType::RoutesInPrePolicyAdjRibIn => 18,
        StatType::RoutesInPerAfiSafiPrePolicyAdjRibIn => 19,
        StatType::RoutesInPostPolicyAdjRibIn => 20,
        StatType::RoutesInPerAfiSafiPostPolicyAdjRibIn => 21,
        StatType::RoutesInPerAfiSafiPrePolicyAdjRibInRejectedByPolicy => 22,
        StatType::RoutesInPerAfiSafiPostPolicyAdjRibInAcceptedByPolicy => 23,
        StatType::RoutesInPerAfiSafiPostPolicyAdjRibInOrLocRibSuppressed => 26,
        StatType::RoutesInPerAfiSafiPostPolicyAdjRibInOrLocRibStaleByGracefulRestart => 27,
        StatType::RoutesInPerAfiSafiPostPolicyAdjRibInOrLocRibStaleByLongLivedGracefulRestart => 28,
        StatType::RoutesInPostPolicyAdjRibInLeftBeforeThreshold => 29,
        StatType::RoutesInPerAfiSafiPostPolicyAdjRibInLeftBeforeThreshold => 30,
        StatType::RoutesInPostPolicyAdjRibInOrLocRibLeftBeforeLicenseThreshold => 31,
        StatType::RoutesInPerAfiSafiPostPolicyAdjRibInOrLocRibLeftBeforeLicenseThreshold => 32,
        StatType::RoutesInPrePolicyAdjRibInRejectedDueToMaxAsPathLength => 33,
        StatType::RoutesInPerAfiSafiPrePolicyAdjRibInRejectedDueToMaxAsPathLength => 34,
        StatType::RoutesInPerAfiSafiPostPolicyAdjRibInInvalidatedByRoa => 35,
        StatType::RoutesInPerAfiSafiPostPolicyAdjRibInValidatedByRoa => 36,
        StatType::RoutesInPerAfiSafiPostPolicyAdjRibInRpkiStateNotFound => 37,
        StatType::RoutesInPerAfiSafiPrePolicyAdjRibOutRejectedByPolicy => 38,
        StatType::RoutesInPrePolicyAdjRibOutFilteredDueToMaxAsPathLength => 39,
        StatType::RoutesInPerAfiSafiPrePolicyAdjRibOutFilteredDueToMaxAsPathLength => 40,
        StatType::RoutesInPerAfiSafiPostPolicyAdjRibOutInvalidatedByRoa => 41,
        StatType::RoutesInPerAfiSafiPostPolicyAdjRibOutValidatedByRoa => 42,
        StatType::RoutesInPerAfiSafiPostPolicyAdjRibOutRpkiStateNotFound => 43,
        StatType::Other(n) => n,
    }
}
