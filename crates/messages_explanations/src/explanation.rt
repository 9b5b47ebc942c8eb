//! An explanation, how it is shown, and how it is found by its name.

ghost use Rattle.std.specs.Prelude.{◌≡◌, IfSome, find, option_map};
ghost use Rattle.messages_explanations.specs.Names.{IsNamed, is_named};

use std::fmt;

/// What an answer means that one of the programs gives by a name or by a few words.
#[derive(Clone, Copy)]
pub struct Explanation {
    /// The name by which it is asked for, as `E23`.
    pub name: &'static str,

    /// The words that stand beside that name elsewhere, or else a few that say what it is.
    pub title: &'static str,

    /// What the answer means, why it is given, and what to do: lines of at most 80 columns.
    pub rule: &'static str,

    /// Two sources, where sources can show it.
    pub example: Option<Example>,
}

/// A source that breaks a rule, and the same source mended.
#[derive(Clone, Copy)]
pub struct Example {
    /// This source is refused for the rule.
    pub broken: &'static str,

    /// This source is accepted.
    pub mended: &'static str,
}

/// Explanations, each by its name, its title and its rule, and two sources where it has an example.
macro_rules! explanations {
    (@) => { None };
    (@ $broken:literal $mended:literal) => {
        Some($crate::explanation::Example {
            broken: $broken,
            mended: $mended,
        })
    };
    ($($name:literal $title:literal => $rule:literal
        $(broken $broken:literal mended $mended:literal)?;)+) => {
        [$(Explanation {
            name: $name,
            title: $title,
            rule: $rule,
            example: explanations!(@ $($broken $mended)?),
        },)+]
    };
}

pub(crate) use explanations;

/// A source of several lines of ASCII, four columns to the right.
#[derive(Clone, Copy)]
struct Shifted(&'static str);

impl fmt::Display for Shifted {
    fn fmt<W: fmt::Write>(&self, f: &mut fmt::Formatter<W>) -> fmt::Result {
        let mut begins_line = true;
        for byte in self.0.as_bytes() {
            let ends_line = *byte == b'\n';
            if begins_line && !ends_line {
                f.write_str("    ")?;
            }
            f.write_char(char::from(*byte))?;
            begins_line = ends_line;
        }
        if begins_line {
            Ok(())
        } else {
            f.write_str("\n")
        }
    }
}

impl fmt::Display for Example {
    fn fmt<W: fmt::Write>(&self, f: &mut fmt::Formatter<W>) -> fmt::Result {
        let broken = Shifted(self.broken);
        let mended = Shifted(self.mended);
        write!(f, "\nBroken:\n\n{broken}\nMended:\n\n{mended}")
    }
}

impl fmt::Display for Explanation {
    fn fmt<W: fmt::Write>(&self, f: &mut fmt::Formatter<W>) -> fmt::Result {
        let name = self.name;
        let title = self.title;
        let rule = self.rule;
        writeln!(f, "{name}: {title}\n\n{rule}")?;
        match self.example {
            Some(example) => write!(f, "{example}"),
            None => Ok(()),
        }
    }
}

impl Explanation {
    /// Whether it is asked for by this name, in capital or in small letters.
    fn is_named(&self, name: &str) -> bool
        ensures { result ≡ is_named name.now self.now }
    {
        self.name.eq_ignore_ascii_case(name)
    }
}

/// The first explanation of a table that has this name.
pub(crate) fn find_in(mut table: &'static [Explanation], name: &str) -> Option<&'static Explanation>
    ensures first { option_map (λ found. found.now) result
        ≡ find (is_named name.now) table.entry.now }
    ensures named { IfSome result (λ found. IsNamed name.now found.now) }
{
    while let [explanation, rest @ ..] = table {
        if explanation.is_named(name) {
            return Some(explanation);
        }
        table = rest;
    }
    None
}
