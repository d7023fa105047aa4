//! Keywords: the first words of lines.
ghost use Rattle.std.specs.Prelude.{◌≡◌, ℕ, Option, Some, List, length};
ghost use Rattle.std.specs.Str.{bytes_eq};
ghost use Rattle.numa_script.specs.Lines.{first_word_of, is_in, keyword_among, keyword_of};
ghost use Rattle.numa_script.specs.Lines.{keywords_of, later_of_four, takes_texts};

use Keyword::*;

/// The first word of a line, which says what kind of line it is.
#[derive(Clone, Copy, Debug, PartialEq, Eq)]
pub enum Keyword {
    /// `limits`
    Limits,
    /// `rules`
    Rules,
    /// `cpus`
    Cpus,
    /// `machine`
    Machine,
    /// `map`
    Map,
    /// `unmap`
    Unmap,
    /// `mbind`
    Mbind,
    /// `home`
    Home,
    /// `task`
    Task,
    /// `inherit`
    Inherit,
    /// `weight`
    Weight,
    /// `mems`
    Mems,
    /// `place`
    Place,
    /// `span`
    Span,
    /// `counts`
    Counts,
    /// `ranges`
    Ranges,
    /// `maps`
    Maps,
    /// `publish`
    Publish,
    /// `begin`
    Begin,
    /// `look`
    Look,
    /// `try`
    Try,
    /// `give`
    Give,
    /// `touch`
    Touch,
    /// `release`
    Release,
    /// `at`
    At,
    /// `room`
    Room,
    /// `memory-migrate`
    MemoryMigrate,
    /// `migrate`
    Migrate,
    /// `move`
    Move,
    /// `moved`
    Moved,
    /// `populate`
    Populate,
    /// `pool`
    Pool,
    /// `fault`
    Fault,
    /// `host`
    Host,
    /// `cgroup`
    Group,
    /// `cgroup-mems`
    GroupMems,
    /// `process`
    Process,
    /// `exit`
    Exit,
    /// `attach`
    Attach,
    /// `fork`
    Fork,
    /// `in`
    In,
}

/// The names of the keywords, in their order.
static NAMES: [&str; 41] = [
    "limits",
    "rules",
    "cpus",
    "machine",
    "map",
    "unmap",
    "mbind",
    "home",
    "task",
    "inherit",
    "weight",
    "mems",
    "place",
    "span",
    "counts",
    "ranges",
    "maps",
    "publish",
    "begin",
    "look",
    "try",
    "give",
    "touch",
    "release",
    "at",
    "room",
    "memory-migrate",
    "migrate",
    "move",
    "moved",
    "populate",
    "pool",
    "fault",
    "host",
    "cgroup",
    "cgroup-mems",
    "process",
    "exit",
    "attach",
    "fork",
    "in",
];

impl Keyword {
    /// Its name: the first word of its lines.
    #[tactic(auto, unfolding(crate::specs::Lines::keyword_of))]
    pub fn name(self) -> &'static str
        ensures word { result.now ≡ first_word_of self }
        ensures read { keyword_of result.now ≡ Some self }
    {
        NAMES[self as usize]
    }

    /// Whether it is `in`: a line of a process of a host stands behind its number.
    #[inline(always)]
    pub fn is_in(self) -> bool
        ensures { result ≡ is_in self }
    {
        matches!(self, Keyword::In)
    }
}

/// Whether a word is this name, which is as long: letter by letter, so that the compiler has the
/// letters of the name.
#[inline(always)]
pub(crate) fn is(word: &[u8], name: &[u8]) -> bool
    requires { length word.now ≡ length name.now }
    ensures { result ≡ bytes_eq word.now name.now }
{
    for place in 0..name.len() {
        if word[place] != name[place] {
            return false;
        }
    }
    true
}

/// The keyword of the word's name, of names that are as long as the word: `otherwise` has the rest.
macro_rules! named {
    ($word:ident, $($name:literal $keyword:ident),+; $otherwise:expr) => {{
        $(
            if is($word, $name) {
                return Some(Keyword::$keyword);
            }
        )+
        $otherwise
    }};
}

/// The keyword of four letters with this name.
fn of_four(first: &[u8]) -> Option<Keyword>
    requires { length first.now ≡ 4 }
    ensures { result ≡ keyword_among (keywords_of 4) first.now }
{
    named!(first, b"span" Span, b"look" Look, b"give" Give, b"maps" Maps, b"home" Home,
        b"task" Task, b"mems" Mems, b"cpus" Cpus; of_four_later(first))
}

/// The same, of those that come less often.
fn of_four_later(first: &[u8]) -> Option<Keyword>
    requires { length first.now ≡ 4 }
    ensures { result ≡ keyword_among later_of_four first.now }
{
    named!(first, b"exit" Exit, b"fork" Fork, b"move" Move, b"room" Room, b"host" Host,
        b"pool" Pool; None)
}

/// The keyword of five letters with this name.
fn of_five(first: &[u8]) -> Option<Keyword>
    requires { length first.now ≡ 5 }
    ensures { result ≡ keyword_among (keywords_of 5) first.now }
{
    named!(first, b"place" Place, b"begin" Begin, b"touch" Touch, b"mbind" Mbind,
        b"unmap" Unmap, b"rules" Rules, b"moved" Moved, b"fault" Fault; None)
}

/// The keyword of six letters with this name.
fn of_six(first: &[u8]) -> Option<Keyword>
    requires { length first.now ≡ 6 }
    ensures { result ≡ keyword_among (keywords_of 6) first.now }
{
    named!(first, b"counts" Counts, b"ranges" Ranges, b"weight" Weight, b"limits" Limits,
        b"attach" Attach, b"cgroup" Group; None)
}

/// The keyword of seven letters with this name.
fn of_seven(first: &[u8]) -> Option<Keyword>
    requires { length first.now ≡ 7 }
    ensures { result ≡ keyword_among (keywords_of 7) first.now }
{
    named!(first, b"publish" Publish, b"release" Release, b"machine" Machine,
        b"inherit" Inherit, b"process" Process, b"migrate" Migrate; None)
}

/// The keyword with this name.
#[tactic(auto, unfolding(crate::specs::Lines::keyword_of))]
pub fn read_keyword(first: &[u8]) -> Option<Keyword>
    ensures { result ≡ keyword_of first.now }
{
    match first.len() {
        2 => named!(first, b"in" In, b"at" At; None),
        3 => named!(first, b"try" Try, b"map" Map; None),
        4 => of_four(first),
        5 => of_five(first),
        6 => of_six(first),
        7 => of_seven(first),
        8 => named!(first, b"populate" Populate; None),
        11 => named!(first, b"cgroup-mems" GroupMems; None),
        14 => named!(first, b"memory-migrate" MemoryMigrate; None),
        _ => None,
    }
}

/// Whether something else than a number may stand behind a keyword.
pub(crate) fn takes_texts(keyword: Keyword) -> bool
    ensures { result ≡ takes_texts keyword }
{
    match keyword {
        Keyword::Rules | Keyword::Cpus | Keyword::Machine => true,
        Keyword::Mbind | Keyword::Task | Keyword::Mems => true,
        Keyword::MemoryMigrate | Keyword::Migrate | Keyword::GroupMems | Keyword::In => true,
        _ => false,
    }
}
