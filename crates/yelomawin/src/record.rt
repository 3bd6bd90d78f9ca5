// A setup's record as numbers, and policies by theirs.
ghost use Rattle.std.specs.Prelude.{◌≡◌, ◌≤◌, set, length};
ghost use Rattle.std.specs.Float.{binary64};
ghost use Rattle.std.specs.Float.Ieee.{to_bits};
ghost use Rattle.definitions.specs.Record.{aggregation_number, basis_number, policy_number, aggregation_of, basis_of, policy_of, are_policies, record_numbers, record_of, is_record};
ghost use Rattle.yelomawin.specs.Boundary.{received};

use definitions::{Setup, TwoLevelAggregation, TwoLevelBasis, TwoLevelCoarseApplyPolicy};
use float_bits::{bits_of, of_bits};

// A table for each policy: the enums share no variant, so that one function for all would hold the same three tables.
#[tactic(auto, unfolding(definitions::specs::Record::aggregation_of))]
pub(crate) fn aggregation_of(n: u64) -> TwoLevelAggregation
    ensures { result ≡ aggregation_of n }
{
    match n {
        0 => TwoLevelAggregation::Contiguous,
        1 => TwoLevelAggregation::Graph,
        _ => TwoLevelAggregation::StrongGraph,
    }
}

#[tactic(auto, unfolding(definitions::specs::Record::basis_of))]
pub(crate) fn basis_of(n: u64) -> TwoLevelBasis
    ensures { result ≡ basis_of n }
{
    match n {
        0 => TwoLevelBasis::PiecewiseConstant,
        _ => TwoLevelBasis::JacobiSmoothed,
    }
}

#[tactic(auto, unfolding(definitions::specs::Record::policy_of))]
pub(crate) fn policy_of(n: u64) -> TwoLevelCoarseApplyPolicy
    ensures { result ≡ policy_of n }
{
    match n {
        0 => TwoLevelCoarseApplyPolicy::Auto,
        1 => TwoLevelCoarseApplyPolicy::FactorSolve,
        _ => TwoLevelCoarseApplyPolicy::ExplicitInverse,
    }
}

// The record's numbers, in their order.
#[tactic(auto, unfolding(definitions::specs::Record::record_numbers, definitions::specs::Record::aggregation_number, definitions::specs::Record::basis_number, definitions::specs::Record::policy_number))]
pub(crate) fn numbers_of(s: Setup) -> [u64; 15]
    ensures { result ≡ record_numbers s }
{
    [
        s.rows,
        s.entries,
        s.block,
        s.group,
        s.nodes,
        s.groups,
        s.coarse,
        s.transfers,
        s.aggregation as u64,
        s.basis as u64,
        s.policy as u64,
        bits_of(s.damping),
        bits_of(s.scale),
        s.complexity,
        s.baseline,
    ]
}

// Whether three numbers are policies.
#[tactic(auto, unfolding(definitions::specs::Record::are_policies))]
pub(crate) fn are_policies(aggregation: u64, basis: u64, policy: u64) -> bool
    ensures { result ≡ are_policies aggregation basis policy }
{
    aggregation <= 2 && basis <= 1 && policy <= 2
}

// Whether a list is a record: as many numbers, and policies among them.
#[tactic(auto, unfolding(definitions::specs::Record::is_record))]
pub(crate) fn is_record(list: &[u64]) -> bool
    ensures { result ≡ is_record list.now }
{
    15 <= list.len() && are_policies(list[8], list[9], list[10])
}

#[tactic(auto, unfolding(definitions::specs::Record::record_of))]
pub(crate) fn record_of(list: &[u64]) -> Setup
    requires { 15 ≤ length list.now }
    ensures { result ≡ record_of list.now }
{
    Setup {
        rows: list[0],
        entries: list[1],
        block: list[2],
        group: list[3],
        nodes: list[4],
        groups: list[5],
        coarse: list[6],
        transfers: list[7],
        aggregation: aggregation_of(list[8]),
        basis: basis_of(list[9]),
        policy: policy_of(list[10]),
        damping: of_bits(list[11]),
        scale: of_bits(list[12]),
        complexity: list[13],
        baseline: list[14],
    }
}
