//! Policy words: NAME, then optionally `=static`, `=relative` and `:LIST`, in this order.
ghost use Rattle.std.specs.Prelude.{◌≡◌, ◌==◌, ◌++◌, ◌∷◌, [], ℕ, true, Ok, Some, IfSome};
ghost use Rattle.numa_mask.specs.Lists.{list_of};
ghost use Rattle.numa_mode.specs.Flags.{has_static, has_relative};
ghost use Rattle.numa_script.specs.Policies.{mode_of, form_with, form_of, form_of_two};
ghost use Rattle.numa_script.specs.Policies.{form_of_three, plain_form, policy_from, policy_of};
ghost use Rattle.numa_script.specs.Policies.{waits_for_pages};

use crate::keyword::is;
use crate::table::meaning;
use bitflags::Flags;
use numa_mask::parts::first_place;
use numa_mask::{ListFault, NodeMask, Parts, read_list};
use numa_mode::{Mode, PolicyFlags, PolicySpec, SpecError};

/// What is wrong with a word for nodes or a policy.
#[derive(Clone, Copy, Debug, PartialEq, Eq)]
pub enum WordError {
    /// The list of nodes is invalid.
    List(ListFault),
    /// There is no such policy.
    Policy(SpecError),
}

/// The part of a policy word before its first colon.
#[derive(Clone, Copy, Debug, PartialEq, Eq)]
pub struct PolicyForm {
    pub mode: Mode,
    pub is_static: bool,
    pub is_relative: bool,
}

/// The names of the modes.
static MODE_NAMES: [(&[u8], Mode); 7] = [
    (b"default", Mode::Default),
    (b"prefer", Mode::Preferred),
    (b"bind", Mode::Bind),
    (b"interleave", Mode::Interleave),
    (b"local", Mode::Local),
    (b"many", Mode::PreferredMany),
    (b"weighted", Mode::WeightedInterleave),
];

/// The mode with this name.
#[tactic(auto, unfolding(crate::specs::Policies::mode_of))]
fn read_mode(name: &[u8]) -> Option<Mode>
    ensures { result ≡ mode_of name.now }
{
    meaning(&MODE_NAMES, name)
}

/// The form of a mode without flags.
#[inline(always)]
fn plain_form(mode: Mode) -> PolicyForm
    ensures { result ≡ plain_form mode }
{
    PolicyForm {
        mode,
        is_static: false,
        is_relative: false,
    }
}

/// The form of a name with these flags.
fn form_with(is_static: bool, is_relative: bool, name: &[u8]) -> Option<PolicyForm>
    ensures { result ≡ form_with is_static is_relative name.now }
{
    let mode = read_mode(name)?;
    Some(PolicyForm {
        mode,
        is_static,
        is_relative,
    })
}

/// The form of a name with one flag.
#[tactic(auto, unfolding(crate::specs::Policies::form_of_two))]
fn form_of_two(name: &[u8], flag: &[u8]) -> Option<PolicyForm>
    ensures { result ≡ form_of_two name.now flag.now }
{
    if flag == b"static".as_slice() {
        return form_with(true, false, name);
    }
    if flag == b"relative".as_slice() {
        return form_with(false, true, name);
    }
    None
}

/// The form of a name with two flags.
#[tactic(auto, unfolding(crate::specs::Policies::form_of_three))]
fn form_of_three(name: &[u8], first: &[u8], second: &[u8]) -> Option<PolicyForm>
    ensures { result ≡ form_of_three name.now first.now second.now }
{
    if first == b"static".as_slice() && second == b"relative".as_slice() {
        return form_with(true, true, name);
    }
    None
}

/// The part of a policy word before its first colon, if it has the right form. Most are a name
/// alone, which is looked up before the text is cut.
fn read_form(text: &[u8]) -> Option<PolicyForm>
    ensures { result ≡ form_of text.now }
{
    if let Some(mode) = read_mode(text) {
        return Some(plain_form(mode));
    }
    form_of_parts(text)
}

/// The same, where the text is cut.
#[inline(never)]
fn form_of_parts(text: &[u8]) -> Option<PolicyForm>
    ensures { result ≡ form_of text.now }
{
    let mut parts = Parts::new(text, b'=');
    let name = parts.next()?;
    let Some(first) = parts.next() else {
        return form_with(false, false, name);
    };
    let Some(second) = parts.next() else {
        return form_of_two(name, first);
    };
    match parts.next() {
        None => form_of_three(name, first, second),
        Some(_) => None,
    }
}

/// The flags as set_mempolicy(2) has them.
fn flags(is_static: bool, is_relative: bool) -> PolicyFlags
    ensures has_static { has_static result ≡ is_static }
    ensures has_relative { has_relative result ≡ is_relative }
{
    match (is_static, is_relative) {
        (false, false) => PolicyFlags::empty(),
        (true, false) => PolicyFlags::STATIC_NODES,
        (false, true) => PolicyFlags::RELATIVE_NODES,
        (true, true) => PolicyFlags::STATIC_NODES.union(PolicyFlags::RELATIVE_NODES),
    }
}

/// The policy of a form and its nodes. The form is checked first, then the list, and then both
/// together.
fn policy(
    form: Option<PolicyForm>,
    nodes: Result<NodeMask, ListFault>,
) -> Result<PolicySpec, WordError>
    ensures { result ≡ policy_from form nodes }
{
    let Some(form) = form else {
        return Err(WordError::Policy(SpecError::UnknownMode));
    };
    let mask = match nodes {
        Ok(mask) => mask,
        Err(fault) => return Err(WordError::List(fault)),
    };
    match PolicySpec::new(form.mode, flags(form.is_static, form.is_relative), mask) {
        Ok(spec) => Ok(spec),
        Err(fault) => Err(WordError::Policy(fault)),
    }
}

/// The nodes from one digit to another, both included.
#[inline(always)]
fn between(first: u8, last: u8) -> Option<NodeMask>
    ensures span { IfSome result (λ set. list_of (first ∷ 45 ∷ last ∷ []) ≡ Ok set) }
    ensures one { IfSome result (λ set. first ≡ last → list_of (first ∷ []) ≡ Ok set) }
{
    if first < b'0' || last < first || b'9' < last {
        return None;
    }
    let up_to_last = u64::MAX >> (63 - (last - b'0'));
    let from_first = u64::MAX << (first - b'0');
    Some(NodeMask::from_words([up_to_last & from_first, 0, 0, 0]))
}

/// The nodes of a list that is one digit, or two around a dash.
#[inline(always)]
fn short_list(list: &[u8]) -> Option<NodeMask>
    ensures { IfSome result (λ set. list_of list.now ≡ Ok set) }
{
    let size = list.len();
    if size == 1 {
        return between(list[0], list[0]);
    }
    if size != 3 || list[1] != b'-' {
        return None;
    }
    between(list[0], list[2])
}

/// The nodes of a list. Most are short, and needn't be cut.
#[inline(always)]
pub(crate) fn read_nodes(list: &[u8]) -> Result<NodeMask, ListFault>
    ensures { result ≡ list_of list.now }
{
    match short_list(list) {
        Some(set) => Ok(set),
        None => read_list(list),
    }
}

/// The text behind a front, if a word begins with it.
#[inline(always)]
fn behind<'a>(word: &'a [u8], front: &[u8]) -> Option<&'a [u8]>
    ensures { IfSome result (λ rest. word.now ≡ front.now ++ rest.now) }
{
    let size = front.len();
    if word.len() < size {
        return None;
    }
    if is(&word[..size], front) {
        return Some(&word[size..]);
    }
    None
}

/// The mode and the list of a word that begins with a mode's name and a colon. Most do, and neither
/// is sought.
#[inline(always)]
fn listed(word: &[u8]) -> Option<(Mode, &[u8])>
    ensures { IfSome result (λ it. policy_of word.now
        ≡ policy_from (Some (plain_form it.0)) (list_of it.1.now)) }
{
    if let Some(list) = behind(word, b"prefer:") {
        return Some((Mode::Preferred, list));
    }
    if let Some(list) = behind(word, b"bind:") {
        return Some((Mode::Bind, list));
    }
    if let Some(list) = behind(word, b"interleave:") {
        return Some((Mode::Interleave, list));
    }
    if let Some(list) = behind(word, b"weighted:") {
        return Some((Mode::WeightedInterleave, list));
    }
    if let Some(list) = behind(word, b"many:") {
        return Some((Mode::PreferredMany, list));
    }
    None
}

/// The policy of a word that is cut at its first colon.
#[inline(never)]
#[tactic(auto, unfolding(crate::specs::Policies::policy_of))]
fn read_cut(word: &[u8]) -> Result<PolicySpec, WordError>
    ensures { result ≡ policy_of word.now }
{
    match first_place(word, b':') {
        None => policy(read_form(word), Ok(NodeMask::empty())),
        Some(colon) => policy(read_form(&word[..colon]), read_list(&word[colon + 1..])),
    }
}

/// Reads a policy word, such as `bind=static:0,2-3`: a mode's name, flags, and after the first
/// colon a list of nodes. Without a colon there are no nodes.
///
/// # Errors
/// The first that applies: `Policy(UnknownMode)`, the part before the colon isn't a mode's name
/// with flags; `List`, what is wrong with the list; `Policy`, as [`PolicySpec::new`] refuses the
/// mode, the flags and the nodes.
pub fn read_policy(word: &[u8]) -> Result<PolicySpec, WordError>
    ensures { result ≡ policy_of word.now }
{
    match listed(word) {
        Some((mode, list)) => policy(Some(plain_form(mode)), read_nodes(list)),
        None => read_cut(word),
    }
}

/// Whether a kernel finds the fault of a policy only where there are pages to give the policy to:
/// mode, flag and nodes don't go together. Each of them by itself it judges before.
pub fn waits_for_pages(fault: WordError) -> bool
    ensures { result ≡ waits_for_pages fault }
{
    match fault {
        WordError::List(_) => false,
        WordError::Policy(fault) => match fault {
            SpecError::NodesForbidden => true,
            SpecError::FlagsForbidden => true,
            SpecError::NodesMissing => true,
            SpecError::UnknownMode => false,
            SpecError::BothFlags => false,
        },
    }
}
