//! Options of a machine: its rules and its fallback orders, by the numbers of the header.
ghost use Rattle.std.specs.Prelude.{◌≡◌, ◌≢◌, IfErr};
ghost use Rattle.numa_mask.specs.Words.{number_of};
ghost use Rattle.numaplan_c.specs.Options.{documents, fallback_of, options_of, rules_of};

use crate::codes::Code;
use crate::nodes::NpNodes;
use numa_machine::{Fallback, Rules};
use numa_mask::NodeMask;

/// The options of a machine: its rules, its fallback orders, and the nodes with CPUs, which matter
/// for a kernel's orders.
#[repr(C)]
#[derive(Clone, Copy)]
pub struct NpOptions {
    pub rules: u32,
    pub orders: u32,
    pub cpus: NpNodes,
}

const _: () = prove!(size_of::<NpOptions>() == 40);

/// The same, in the types of the crates below.
#[derive(Clone, Copy)]
pub struct Options {
    pub rules: Rules,
    pub fallback: Fallback,
}

/// The documents' rules, and the nearest node first.
pub(crate) fn documents() -> Options
    ensures { result ≡ documents }
{
    Options {
        rules: Rules::Document,
        fallback: Fallback::Nearest,
    }
}

/// The rules with this number.
pub(crate) fn rules_of(number: u32) -> Option<Rules>
    ensures { result ≡ rules_of number }
{
    match number {
        0 => Some(Rules::Document),
        1 => Some(Rules::Linux),
        _ => None,
    }
}

/// The orders with this number, if these nodes have CPUs.
fn fallback_of(number: u32, cpus: &NpNodes) -> Option<Fallback>
    ensures { result ≡ fallback_of number (number_of cpus.now.words) }
{
    match number {
        0 => Some(Fallback::Nearest),
        1 => Some(Fallback::Kernel(NodeMask::from_words(cpus.words))),
        _ => None,
    }
}

/// The meaning of options, or the code of what is wrong with them.
pub(crate) fn options_of(options: &NpOptions) -> Result<Options, u32>
    ensures options { result ≡ options_of options.now }
    ensures refused { IfErr result (λ code. code ≢ 0) }
{
    let Some(rules) = rules_of(options.rules) else {
        return Err(Code::BadRules as u32);
    };
    let Some(fallback) = fallback_of(options.orders, &options.cpus) else {
        return Err(Code::BadOrders as u32);
    };
    Ok(Options { rules, fallback })
}
