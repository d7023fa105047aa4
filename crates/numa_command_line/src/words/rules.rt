//! Whose rules apply unless a script says so: `--rules document|linux`.
ghost use Rattle.std.specs.Prelude.{◌≡◌};
ghost use Rattle.numa_command_line.specs.Grammar.{AreNames, rules, rules_names};
ghost use Rattle.numa_command_line.specs.Usage.{Names, rule_said};
ghost use Rattle.clap.specs.Words.{found_of, rows_of};
ghost use Rattle.numa_command_line.specs.Values.{rules_in};

use crate::found::text_at;
use crate::usage::{Argument, Takes};
use clap::ArgMatches;
use numa_machine::Rules;

/// The argument `--rules RULES`.
static RULES: Argument = Argument {
    name: "rules",
    value: "RULES",
    help: "Whose rules count, unless a line `rules` of the scripts says otherwise",
    is_required: false,
    takes: Takes::OneOf("document", &["document", "linux"]),
};

/// The option `--rules RULES`.
pub fn argument() -> &'static Argument
    ensures { (names : Names) × AreNames rules_names names
        × (rule_said result.now ≡ rules names) }
{
    &RULES
}

/// The requested rules.
pub fn rules_in(matches: &ArgMatches<'_>) -> Rules
    ensures { result ≡ rules_in (rows_of (found_of matches.now)) }
{
    match text_at(matches, "rules") {
        Some(name) if name == "linux" => Rules::Linux,
        _ => Rules::Document,
    }
}
