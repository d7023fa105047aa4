//! Settings of the machine to come.
use numa_machine::Rules;
use numa_mask::NodeMask;
use numa_requests::Limits;

/// What the lines before a machine have set for it: its limits, its rules, and its nodes with CPUs,
/// if a line named them.
#[derive(Clone, Copy)]
pub struct Settings {
    pub limits: Limits,
    pub rules: Rules,
    pub cpus: Option<NodeMask>,
}
