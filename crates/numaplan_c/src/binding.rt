//! The policies of calls of mbind.
ghost use Rattle.std.specs.Prelude.{◌≡◌};
ghost use Rattle.numa_mask.specs.Words.{number_of};
ghost use Rattle.numa_mode.specs.Policy.{raw_specification};
ghost use Rattle.numaplan_c.specs.Bound.{bound_spec, default_spec, home_of, host_rules_in};
ghost use Rattle.numaplan_c.specs.Bound.{page_rules_in, rules_in, spec_by};
ghost use Rattle.numaplan_handles.specs.Handles.{core_in, host_in, pages_in};

use crate::nodes::NpNodes;
use numa_machine::Rules;
use numa_mask::NodeMask;
use numa_mode::{PolicySpec, SpecError};
use numa_requests::Command;
use numa_script::WordError;
use numa_script::commands::empty_bind;
use numa_script::policy::waits_for_pages;
use numaplan_handles::{CoreHandle, HostHandle, PagesHandle};
use std::alloc::Global;

/// No policy.
fn default_spec() -> PolicySpec
    ensures { result ≡ default_spec }
{
    let Command::Mbind { spec, .. } = empty_bind(0) else {
        unreachable!()
    };
    spec
}

/// The policy that a mode word and a set of nodes ask for.
pub(crate) fn raw_spec(mode: u32, nodes: &NpNodes) -> Result<PolicySpec, SpecError>
    ensures { result ≡ raw_specification mode (number_of nodes.now.words) }
{
    PolicySpec::from_raw(mode, NodeMask::from_words(nodes.words))
}

/// The same; what is wrong with it is told as of a policy word that says them.
pub(crate) fn spec_by(mode: u32, nodes: &NpNodes) -> Result<PolicySpec, WordError>
    ensures { result ≡ spec_by mode nodes.now }
{
    match raw_spec(mode, nodes) {
        Ok(spec) => Ok(spec),
        Err(fault) => Err(WordError::Policy(fault)),
    }
}

/// The policy that an mbind of so many bytes sets for one that was read, by these rules.
pub(crate) fn bound_spec(
    rules: Rules,
    length: u64,
    policy: Result<PolicySpec, WordError>,
) -> Result<PolicySpec, WordError>
    ensures { result ≡ bound_spec rules length policy }
{
    match policy {
        Ok(spec) => Ok(spec),
        Err(fault) => {
            if length == 0 && waits_for_pages(fault) && rules.is_linux() {
                return Ok(default_spec());
            }
            Err(fault)
        }
    }
}

/// The node that a set_mempolicy_home_node(2) asks for. It takes no flags.
pub(crate) fn home_of(node: u64, flags: u64) -> Result<u32, SpecError>
    ensures { result ≡ home_of node flags }
{
    if flags != 0 {
        return Err(SpecError::FlagsForbidden);
    }
    Ok(node.min(4_294_967_295) as u32)
}

/// The rules of a core; `Document` if the handle is closed.
pub(crate) fn core_rules(alloc: Global, core: &mut CoreHandle) -> Rules
    ensures same { core_in core.new ≡ core_in core.old }
    ensures rules { result ≡ rules_in (core_in core.old) }
{
    core.rules(alloc).unwrap_or(Rules::Document)
}

/// The same of a core with its pages.
pub(crate) fn page_rules(alloc: Global, pages: &mut PagesHandle) -> Rules
    ensures same { pages_in pages.new ≡ pages_in pages.old }
    ensures rules { result ≡ page_rules_in (pages_in pages.old) }
{
    pages.rules(alloc).unwrap_or(Rules::Document)
}

/// The same of a host.
pub(crate) fn host_rules(alloc: Global, host: &mut HostHandle) -> Rules
    ensures same { host_in host.new ≡ host_in host.old }
    ensures rules { result ≡ host_rules_in (host_in host.old) }
{
    host.rules(alloc).unwrap_or(Rules::Document)
}
