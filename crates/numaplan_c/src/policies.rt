//! Policy words: their effective sets, and their text in numa_maps.
ghost use Rattle.std.specs.Prelude.{◌≡◌, MatchOption, MatchResult};
ghost use Rattle.numa_mask.specs.Lists.{list_of};
ghost use Rattle.numa_mode.specs.Policy.{policy_text};
ghost use Rattle.numaplan_c.specs.Options.{rules_of};
ghost use Rattle.numaplan_c.specs.Policies.{record_of, standing, rebound, TellsNodes};
ghost use Rattle.numaplan_c.specs.Texts.{IsWritten};

use crate::codes::{Code, list_code, refusal_code, word_code};
use crate::nodes::NpNodes;
use crate::options::rules_of;
use crate::texts::write;
use numa_machine::Rules;
use numa_mask::{NodeMask, read_list};
use numa_mode::{PolicySpec, Record};
use numa_requests::Refusal;
use numa_script::policy::read_policy;

/// The record of a policy that is set while these nodes are allowed.
fn record_of(spec: PolicySpec, allowed: &NodeMask) -> Result<Record, u32>
    ensures { result ≡ record_of spec allowed.now }
{
    if spec.is_default() {
        return Err(Code::NoPolicy as u32);
    }
    if allowed.is_empty() {
        return Err(Code::NoNodeAllowed as u32);
    }
    match Record::set(spec, allowed) {
        Ok(record) => Ok(record),
        Err(_) => Err(refusal_code(Refusal::NodesNotAllowed)),
    }
}

/// The same, for a policy word and a list of nodes.
fn standing(policy: &[u8], allowed: &[u8]) -> Result<Record, u32>
    ensures { result ≡ standing policy.now allowed.now }
{
    let spec = match read_policy(policy) {
        Ok(spec) => spec,
        Err(fault) => return Err(word_code(fault)),
    };
    match read_list(allowed) {
        Ok(allowed) => record_of(spec, &allowed),
        Err(fault) => Err(list_code(fault)),
    }
}

/// The record after a change of the allowed nodes, by these rules.
fn rebound(
    rules: Rules,
    standing: Result<Record, u32>,
    old: &[u8],
    new: &[u8],
) -> Result<Record, u32>
    ensures { result ≡ rebound rules standing (list_of old.now) (list_of new.now) }
{
    let standing = match standing {
        Ok(standing) => standing,
        Err(code) => return Err(code),
    };
    let old = match read_list(old) {
        Ok(old) => old,
        Err(fault) => return Err(list_code(fault)),
    };
    let new = match read_list(new) {
        Ok(new) => new,
        Err(fault) => return Err(list_code(fault)),
    };
    if new.is_empty() {
        return Err(Code::NoNodeAllowed as u32);
    }
    Ok(standing.rebind(rules, &old, &new))
}

/// Writes the effective set of a record, if there is one.
fn tell_nodes(found: Result<Record, u32>, nodes: &mut NpNodes) -> u32
    ensures { TellsNodes found result nodes.old nodes.new }
{
    match found {
        Ok(record) => {
            nodes.words = record.effective().words();
            0
        }
        Err(code) => code,
    }
}

/// Writes the effective set of a policy that is set while these nodes are allowed.
#[unsafe(no_mangle)]
pub extern "C" fn np_policy_effective(policy: &[u8], allowed: &[u8], nodes: &mut NpNodes) -> u32
    ensures { TellsNodes (standing policy.now allowed.now) result nodes.old nodes.new }
{
    tell_nodes(standing(policy, allowed), nodes)
}

/// Writes the effective set of a policy after a change of the allowed nodes, by the documents'
/// rules.
#[unsafe(no_mangle)]
pub extern "C" fn np_policy_rebind(
    policy: &[u8],
    old: &[u8],
    new: &[u8],
    nodes: &mut NpNodes,
) -> u32
    ensures { TellsNodes (rebound Rules.Document (standing policy.now old.now) (list_of old.now)
        (list_of new.now)) result nodes.old nodes.new }
{
    let documents = Rules::Document;
    tell_nodes(rebound(documents, standing(policy, old), old, new), nodes)
}

/// The same by the rules with this number.
#[unsafe(no_mangle)]
pub extern "C" fn np_policy_rebind_by(
    rules: u32,
    policy: &[u8],
    old: &[u8],
    new: &[u8],
    nodes: &mut NpNodes,
) -> u32
    ensures { MatchOption (rules_of rules) ((result ≡ 56) × (nodes.new ≡ nodes.old))
        (λ these. TellsNodes (rebound these (standing policy.now old.now) (list_of old.now)
        (list_of new.now)) result nodes.old nodes.new) }
{
    let Some(rules) = rules_of(rules) else {
        return Code::BadRules as u32;
    };
    tell_nodes(rebound(rules, standing(policy, old), old, new), nodes)
}

/// Writes a policy that is set while these nodes are allowed, as numa_maps shows it.
#[unsafe(no_mangle)]
pub extern "C" fn np_policy_text(
    policy: &[u8],
    allowed: &[u8],
    room: &mut [u8],
    length: &mut usize,
) -> u32
    ensures { MatchResult (standing policy.now allowed.now)
        (λ r. IsWritten (policy_text r) result room.old room.new length.new)
        (λ code. (result ≡ code) × (room.new ≡ room.old) × (length.new ≡ length.old)) }
{
    match standing(policy, allowed) {
        Ok(record) => write(record.policy_text().as_str().as_bytes(), room, length),
        Err(code) => code,
    }
}
