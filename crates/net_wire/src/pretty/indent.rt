//! What stands in front of each line.
ghost use Rattle.std.specs.Prelude.{◌≡◌, ◌<◌, [], ◌∷◌, replicate, Some, OnOk};
ghost use Rattle.std.specs.Fmt.{WritesOnOk};
ghost use Rattle.net_wire.specs.PrettyIndent.{Indent, indent_from, deeper, indent_text};

use std::fmt;
use std::marker::Model;

/// A prefix in front of the first line, and blanks and a branch in front of each line below it.
#[derive(Debug, Drop)]
pub struct PrettyIndent {
    prefix: &'static str,
    level: usize,
}

impl Model for PrettyIndent {
    ghost Value = { Indent };

    ghost view = { λ indent. record { prefix = indent.prefix.now; level = indent.level } };
}

impl PrettyIndent {
    /// The indent of the first line.
    pub fn new(prefix: &'static str) -> PrettyIndent
        ensures value { result ≡ indent_from prefix.now }
    {
        PrettyIndent { prefix, level: 0 }
    }

    /// Ends the line, and goes a level deeper.
    pub fn increase<W: fmt::Write>(&mut self, f: &mut fmt::Formatter<W>) -> fmt::Result
        requires { self.old.level < usize.MAX }
        ensures text { WritesOnOk W.write_str_gives f.old result (10 ∷ []) f.new }
        ensures value { OnOk result (self.new ≡ deeper self.old) }
        ensures prefix { self.new.prefix ≡ self.old.prefix }
    {
        write!(f, "\n")?;
        self.level += 1;
        Ok(())
    }

    /// So many blanks.
    fn blanks<W: fmt::Write>(count: usize, f: &mut fmt::Formatter<W>) -> fmt::Result
        ensures { WritesOnOk W.write_str_gives f.old result (replicate count 32) f.new }
    {
        for _i in 0..count {
            write!(f, " ")?;
        }
        Ok(())
    }
}

impl fmt::Display for PrettyIndent {
    ghost output = { λ indent. Some (indent_text indent) };

    #[tactic(auto, unfolding(crate::specs::PrettyIndent::indent_text))]
    fn fmt<W: fmt::Write>(&self, f: &mut fmt::Formatter<W>) -> fmt::Result {
        if self.level == 0 {
            return write!(f, "{}", self.prefix);
        }
        PrettyIndent::blanks(self.prefix.len(), f)?;
        PrettyIndent::blanks(self.level - 1, f)?;
        write!(f, "\\ ")
    }
}
