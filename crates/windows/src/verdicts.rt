// What a verdict tells.
ghost use Rattle.std.specs.Prelude.{Some};
ghost use Rattle.windows.specs.Shown.{tightest_text, verdict_text};

use std::fmt;

// The window with the least margin.
#[derive(Clone, Copy, PartialEq, Eq, Debug)]
pub struct Tightest {
    // Its energy less the need of its length.
    pub margin: i32,
    // The slot in which it ends, counted from 1.
    pub end: u32,
    // How many slots it has.
    pub length: u32,
}

// No `Result`: that a record is broken is an answer, and no failure of the call.
#[derive(Clone, Copy, PartialEq, Eq, Debug)]
pub enum Verdict {
    // No margin is negative; an empty record has none at all.
    Kept(Option<Tightest>),
    // The least margin is negative.
    Broken(Tightest),
}

impl fmt::Display for Tightest {
    ghost output = { λ x. Some (tightest_text x) };

    fn fmt<W: fmt::Write>(&self, f: &mut fmt::Formatter<W>) -> fmt::Result {
        write!(
            f,
            "margin {} end {} length {}",
            self.margin, self.end, self.length
        )
    }
}

impl fmt::Display for Verdict {
    ghost output = { λ x. Some (verdict_text x) };

    fn fmt<W: fmt::Write>(&self, f: &mut fmt::Formatter<W>) -> fmt::Result {
        match self {
            Verdict::Kept(None) => write!(f, "kept"),
            Verdict::Kept(Some(tightest)) => write!(f, "kept {tightest}"),
            Verdict::Broken(tightest) => write!(f, "broken {tightest}"),
        }
    }
}
