//! Recognizing errors and refusals in answers.
ghost use Rattle.std.specs.Prelude.{◌≡◌};
ghost use Rattle.numa_script.specs.Replies.{is_fault};
ghost use Rattle.numa_script.specs.Texts.{text_of};
ghost use Rattle.numa_script.specs.declared.reply.Reply.{Reply};
ghost use Rattle.numa_subjects.specs.Faults.{tells_fault};

/// Whether an answer is an error or a refusal: it begins with `bad ` or `refused `, as no other
/// reply does.
#[tactic(auto, using(crate::proofs::Replies::fault_of_text))]
pub fn tells_fault(answer: &[u8]) -> bool
    ensures value { result ≡ tells_fault answer.now }
    ensures reply { (said : Reply) → answer.now ≡ text_of said → result ≡ is_fault said }
{
    answer.starts_with(b"bad ") || answer.starts_with(b"refused ")
}
