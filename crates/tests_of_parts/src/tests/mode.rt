//! Mode words of set_mempolicy(2), which no script has, with the numbers of the kernel's header
//! linux/mempolicy.h: the modes count from 0, and STATIC_NODES is bit 15, RELATIVE_NODES bit 14.
use crate::tests::same::same;
use numa_examples::set_of;
use numa_mode::{Mode, NodeFlag, PolicySpec, SpecError};

/// What a word and nodes ask for, or why they ask for nothing.
type Asked = Result<(Mode, NodeFlag), SpecError>;

static WORDS: [(u32, &[u8], Asked); 19] = [
    (0, &[], Ok((Mode::Default, NodeFlag::Plain))),
    (1, &[1], Ok((Mode::Preferred, NodeFlag::Plain))),
    (1, &[], Ok((Mode::Local, NodeFlag::Plain))),
    (2, &[5], Ok((Mode::Bind, NodeFlag::Plain))),
    (3, &[5], Ok((Mode::Interleave, NodeFlag::Plain))),
    (4, &[], Ok((Mode::Local, NodeFlag::Plain))),
    (5, &[5], Ok((Mode::PreferredMany, NodeFlag::Plain))),
    (6, &[5], Ok((Mode::WeightedInterleave, NodeFlag::Plain))),
    (0x8002, &[1], Ok((Mode::Bind, NodeFlag::Static))),
    (0x4003, &[2], Ok((Mode::Interleave, NodeFlag::Relative))),
    (0x8000, &[], Ok((Mode::Default, NodeFlag::Plain))),
    (0xc002, &[5], Err(SpecError::BothFlags)),
    (7, &[], Err(SpecError::UnknownMode)),
    (0x2002, &[5], Err(SpecError::UnknownMode)),
    (0x10002, &[5], Err(SpecError::UnknownMode)),
    (0x8001, &[], Err(SpecError::FlagsForbidden)),
    (4, &[5], Err(SpecError::NodesForbidden)),
    (0, &[5], Err(SpecError::NodesForbidden)),
    (3, &[], Err(SpecError::NodesMissing)),
];

/// What a word and nodes ask for.
fn asked(word: u32, nodes: &[u8]) -> Asked {
    match PolicySpec::from_raw(word, set_of(nodes)) {
        Ok(spec) => Ok((spec.mode(), spec.flag())),
        Err(fault) => Err(fault),
    }
}

#[test]
fn words(rt: HostRuntime) {
    for (word, nodes, wanted) in &WORDS {
        same(&rt, &(*word, asked(*word, nodes)), &(*word, *wanted));
    }
}
