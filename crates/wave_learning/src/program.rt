use defs_soar::Chain;
use rule_shelf::Rules;
use soar_sym::List;

/// The explanation of a learned rule, which is kept as long as the rule.
#[derive(Drop)]
pub struct LearnedRule {
    pub rule: u64,
    pub chain: Chain,
}

/// The rules in order of number, and what is kept of those that were learned.
#[derive(Drop)]
pub struct Program {
    pub rules: Rules,
    /// The last number that a rule had.
    pub last_rule: u64,
    pub chains: List<LearnedRule>,
    /// The number in the name of the last chunk, and in that of the last justification.
    pub chunks: u64,
    pub justifications: u64,
}
